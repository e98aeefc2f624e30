//! Steps of a trace that come one after the other, and those that are read ahead into queues.
use crate::limited::Limited;
use byte_streams::FromRead;
use physiological_order::Op;
use programs::Program;
use std::alloc::{AllocError, Global};
use std::io;
use std::io::Read;
use trace_reader::{AheadError, Kind, ReadAhead, Step, StepStream, TraceError};

// What a stream tells of a text: each step's line, its core, and whether it is an advance.
type Told = (usize, u32, bool);

// How it ends: with the text, or with a fault.
type TextEnd = Result<(), (usize, Kind)>;

const TEXTS: &[(&[u8], &[Told], TextEnd)] = &[
    (b"", &[], Ok(())),
    (b"\n# none\ntrace 2\n\n", &[], Ok(())),
    (b"3 R 0x8", &[(1, 3, false)], Ok(())),
    (
        b"# first\n0 R 0x0\n\n1 W 0x8 7\n 15 S 0x10 2 # last",
        &[(2, 0, false), (4, 1, false), (5, 15, false)],
        Ok(()),
    ),
    (
        b"trace 2\n63 A\n2 R 0x0\n",
        &[(2, 63, true), (3, 2, false)],
        Ok(()),
    ),
    (
        b"0 R 0x0\n\n16 R 0x0\n0 R 0x0\n",
        &[(1, 0, false)],
        Err((3, Kind::BadCore)),
    ),
    (b"\ntrace 3\n0 A\n", &[], Err((2, Kind::BadForm))),
];

// The end of what a stream tells; a step is none.
fn end_of<R: Read>(stream: &mut StepStream, source: &mut FromRead<R>) -> TextEnd {
    match stream.next(source) {
        Ok(None) => Ok(()),
        Ok(Some(_)) => Err((0, Kind::NoMemory)),
        Err(error) => Err((error.line, error.kind)),
    }
}

fn is_next<R: Read>(stream: &mut StepStream, source: &mut FromRead<R>, wanted: &Told) -> bool {
    // The check finds what a step holds only where the function names its type.
    let _inside: Option<Op> = None;
    let (line, core, advances) = *wanted;
    match stream.next(source) {
        Ok(Some((told, step))) => {
            let is_advance = match step {
                Step::Advance => true,
                Step::Op(_) => false,
            };
            stream.lines_taken() == line && told == core && is_advance == advances
        }
        _ => false,
    }
}

// Whether a text that comes so many bytes a call tells these steps, and then twice this end.
fn is_told(case: &(&[u8], &[Told], TextEnd), step: usize) -> bool {
    let (text, steps, end) = *case;
    let mut source = FromRead::new(Limited {
        inner: text,
        step,
        calls: 99,
    });
    let mut stream = StepStream::new();
    for wanted in steps {
        if !is_next(&mut stream, &mut source, wanted) {
            return false;
        }
    }
    end_of(&mut stream, &mut source) == end && end_of(&mut stream, &mut source) == end
}

#[test]
fn steps_come_in_order(rt: HostRuntime) {
    for step in [1, 3, 4096] {
        for case in TEXTS {
            assert!(rt; is_told(case, step));
        }
    }
}

// A reader that fails at every second call, the first among them, and gives one byte at each other.
#[derive(Drop)]
struct Stumbling<'a> {
    inner: &'a [u8],
    fails: bool,
}

impl<'a> Read for Stumbling<'a> {
    fn read(&mut self, buffer: &mut [u8]) -> io::Result<usize> {
        self.fails = !self.fails;
        if !self.fails {
            return Err(io::Error::from(io::ErrorKind::BrokenPipe));
        }
        let most = buffer.len().min(1);
        self.inner.read(&mut buffer[..most])
    }
}

// How many calls fail until a text of one step has told it, and its end; none if anything else is told.
fn failures(text: &[u8], wanted: &Told) -> Option<u32> {
    let _inside: Option<Op> = None;
    let mut source = FromRead::new(Stumbling {
        inner: text,
        fails: true,
    });
    let mut stream = StepStream::new();
    let mut failed: u32 = 0;
    let mut told = false;
    for _ in 0..99 {
        match stream.next(&mut source) {
            Ok(None) => return if told { Some(failed) } else { None },
            Ok(Some((core, _))) => told = (stream.lines_taken(), core, false) == *wanted,
            Err(
                TraceError {
                    line: 0,
                    kind: Kind::Read,
                },
            ) => failed = failed.saturating_add(1),
            Err(_) => return None,
        }
    }
    None
}

// Eleven bytes, and the end, come a call each, and a call before each of them fails.
#[test]
fn no_byte_is_lost_where_calls_fail(rt: HostRuntime) {
    assert_eq!(rt; failures(b"#\n\n4 R 0x8\n", &(3, 4, false)), Some(12));
}

const TRACE: &[u8] = b"0 R 0x0\n0 R 0x8\n\n1 R 0x0\n2 W 0x0 1\n0 R 0x8\n";

// How many steps the shortest queue has, the greatest core that was met plus 1, and how many words were named.
type Ahead = (usize, u32, usize);

fn ahead_of(ahead: &ReadAhead) -> Result<Ahead, AllocError> {
    Ok((ahead.shortest(), ahead.met(), ahead.words().words()?.len()))
}

// A reader of TRACE with so many queues is asked for so many steps: what it answers, and what is ahead then. The rest
// is skipped: what it answers, and what it has met by then.
type Row = (
    u32,
    usize,
    Result<bool, AheadError>,
    Ahead,
    Result<bool, AheadError>,
    u32,
);

const ROWS: &[Row] = &[
    (3, 0, Ok(true), (1, 3, 2), Ok(true), 3),
    (3, 5, Ok(true), (1, 3, 2), Ok(false), 3),
    (3, 6, Ok(false), (1, 3, 2), Ok(false), 3),
    (4, 1, Ok(false), (0, 3, 2), Ok(false), 3),
    (2, 3, Ok(true), (1, 2, 2), Err(AheadError::NoQueue(5)), 2),
    (
        2,
        4,
        Err(AheadError::NoQueue(5)),
        (1, 2, 2),
        Err(AheadError::NoQueue(5)),
        2,
    ),
    (1, 1, Ok(true), (1, 1, 1), Err(AheadError::NoQueue(4)), 1),
    (0, 0, Ok(true), (0, 0, 0), Err(AheadError::NoQueue(1)), 0),
];

fn is_read(alloc: Global, row: &Row, names: bool) -> Result<bool, AllocError> {
    let (cores, wanted, filled, (shortest, met, words), skipped, met_in_all) = *row;
    let mut source = FromRead::new(TRACE);
    let mut ahead = ReadAhead::new(alloc, cores, names)?;
    let came = ahead.fill(&mut source, wanted);
    let now = (shortest, met, if names { words } else { 0 });
    Ok(
        came == filled
            && ahead_of(&ahead)? == now
            && ahead.are_empty() == (met == 0)
            && ahead.skip(&mut source) == skipped
            && ahead.met() == met_in_all,
    )
}

#[test]
fn texts_are_read_ahead(rt: HostRuntime) {
    for row in ROWS {
        for names in [false, true] {
            assert_eq!(rt; is_read(rt.alloc(), row, names), Ok(true));
        }
    }
}

// A text that is skipped fills no queue, but its cores and its words are met.
fn is_skipped(alloc: Global) -> Result<bool, AllocError> {
    let mut source = FromRead::new(TRACE);
    let mut ahead = ReadAhead::new(alloc, 3, true)?;
    let came = ahead.skip(&mut source);
    Ok(came == Ok(true) && ahead.are_empty() && ahead_of(&ahead)? == (0, 3, 2))
}

// Both queues are filled from the first four lines, and keep what they have. Once the second is empty again, the next
// line is of a core without a queue, each time.
fn are_filled(alloc: Global) -> Result<bool, AllocError> {
    let _inside: Option<Op> = None;
    let mut source = FromRead::new(TRACE);
    let mut ahead = ReadAhead::new(alloc, 2, true)?;
    for _ in 0..2 {
        if ahead.fill(&mut source, 0) != Ok(true) || ahead_of(&ahead)? != (1, 2, 2) {
            return Ok(false);
        }
    }
    if let Some(queue) = ahead.queues().get_mut(1) {
        queue.done(Some(0));
    }
    for _ in 0..2 {
        if ahead.fill(&mut source, 0) != Err(AheadError::NoQueue(5))
            || ahead_of(&ahead)? != (0, 2, 2)
        {
            return Ok(false);
        }
    }
    Ok(true)
}

#[test]
fn queues_are_filled(rt: HostRuntime) {
    assert!(rt; is_skipped(rt.alloc()) == Ok(true) && are_filled(rt.alloc()) == Ok(true));
}
