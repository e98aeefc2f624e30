//! Texts of traces and of records that come a few bytes a call, and devices that fail on the way.
use crate::limited::Limited;
use byte_streams::FromRead;
use network::Counts;
use physiological_order::{Op, WordAddr};
use programs::End;
use report::{Layout, TraceEnd, trace_text};
use std::alloc::{AllocError, Global};
use trace_reader::{Kind, Step, TraceError, read, read_records};

// What is read of a trace: how many cores it has, and how many steps and operations its last core. Of records it is how
// many there are. Or it is the fault, with its line.
type Sizes = Result<(u32, usize, usize), (usize, Kind)>;

type Count = Result<usize, (usize, Kind)>;

// A text that comes so many bytes a call, where so many calls succeed.
fn source(text: &[u8], step: usize, calls: u32) -> FromRead<Limited<&[u8]>> {
    FromRead::new(Limited {
        inner: text,
        step,
        calls,
    })
}

fn told(error: TraceError) -> (usize, Kind) {
    (error.line, error.kind)
}

fn sizes(alloc: Global, text: &[u8], step: usize, calls: u32) -> Sizes {
    // The check finds what a step holds only where the function names its type.
    let _inside: Option<(Step, Op)> = None;
    let trace = read(alloc, &mut source(text, step, calls)).map_err(told)?;
    let (cores, last) = (trace.cores(), trace.cores() - 1);
    Ok((cores, trace.steps(last).len(), trace.ops(last).len()))
}

fn record_count(alloc: Global, text: &[u8], step: usize, calls: u32) -> Count {
    let _inside: Option<Op> = None;
    let records = read_records(alloc, &mut source(text, step, calls)).map_err(told)?;
    Ok(records.len())
}

// Texts of traces: the ends of lines, comments and words lie between two calls. Some are refused.
const TRACES: &[(&[u8], Sizes)] = &[
    (b"", Ok((1, 0, 0))),
    (b"trace 2", Ok((1, 0, 0))),
    (b"3 R 0x8", Ok((4, 1, 1))),
    (b"\n  \t\n# trace 2\n\n#", Ok((1, 0, 0))),
    (b"trace 2 #\n63 A\n", Ok((64, 1, 0))),
    (
        b"1 R 0x0\n0 W 0x0 1\n1 R 0x8\n 15 S 0x10 2 # last",
        Ok((16, 1, 1)),
    ),
    (
        b"#\n\ntrace 2\n5 A\n2 R 0x0\n5 W 0x0 3\n5 A\n2 A\n",
        Ok((6, 3, 1)),
    ),
    (b"trace 2\n2 R 0x0\n2 A\n", Ok((3, 2, 1))),
    (b"0 R 0x0\n0 W 0x8 7", Ok((1, 2, 2))),
    (b"16 R 0x0", Err((1, Kind::BadCore))),
    (b"0 R 0x0\r0 R 0x8\n", Err((1, Kind::BadAddress))),
    (b"0 R 0x0\n\r\n", Err((2, Kind::BadCore))),
    (b"\n# a comment\ntrace 1\n", Err((3, Kind::BadForm))),
    (b"0 R 0x0\n0 R 0x0\n0 R 0x0\n\xff", Err((4, Kind::BadCore))),
];

// Texts of records.
const RECORDS: &[(&[u8], Count)] = &[
    (b"0 0 R 0x0 0 0 0\n#\n", Ok(1)),
    (b"0 4294967296 R 0x0 0 0 0", Err((1, Kind::BadValue))),
    (b"\n0 0 R 0x0 0 0 0\n#\n0 1", Err((4, Kind::BadOperation))),
    (b"0 0 R 0x0 0 0 0\r\n", Err((1, Kind::BadValue))),
];

#[test]
fn texts_come_in_few_bytes(rt: HostRuntime) {
    for step in [1, 2, 3, 7, 4096] {
        for (text, wanted) in TRACES {
            assert!(rt; sizes(rt.alloc(), text, step, 99) == *wanted);
        }
        for (text, wanted) in RECORDS {
            assert!(rt; record_count(rt.alloc(), text, step, 99) == *wanted);
        }
    }
}

// 18 bytes, of which two come a call: the ninth call brings the last, and the tenth the end.
const TRACE: &[u8] = b"0 R 0x0\n1 W 0x8 7\n";

const RECORD: &[u8] = b"0 0 R 0x0 0 0 0\n#\n";

#[test]
fn devices_that_fail(rt: HostRuntime) {
    for calls in 0..10 {
        let trace = sizes(rt.alloc(), TRACE, 2, calls);
        let records = record_count(rt.alloc(), RECORD, 2, calls);
        assert!(rt; trace == Err((0, Kind::Read)) && records == Err((0, Kind::Read)));
    }
    let enough = sizes(rt.alloc(), TRACE, 2, 10);
    assert!(rt; enough == Ok((2, 1, 1)) && record_count(rt.alloc(), RECORD, 2, 10) == Ok(1));
}

// A fault is answered before a device fails that has brought it.
#[test]
fn faults_before_a_failure(rt: HostRuntime) {
    let text = b"0 X 0x0\n0 R 0x0\n";
    let brought = sizes(rt.alloc(), text, 8, 1);
    let cut = sizes(rt.alloc(), text, 7, 1);
    let record = record_count(rt.alloc(), b"0 0 X 8\n0 0", 8, 1);
    let bad = (1, Kind::BadOperation);
    assert!(rt; brought == Err(bad) && cut == Err((0, Kind::Read)) && record == Err(bad));
}

// A record of a load that received 7, where nobody wrote; its core has none before it; and its number isn't 0. Behind
// each are the last lines of the report on it and on a word that is left as 9.
const REPORTS: [(&[u8], &[u8]); 3] = [
    (
        b"0 0 R 0x0 7 0 0\n",
        b"stale-hits 0\norder wrong value 0\nword 0x0 9\n",
    ),
    (
        b"0 1 R 0x0 7 0 0\n",
        b"stale-hits 0\norder out of program order 0\nword 0x0 9\n",
    ),
    (
        b"0 0 R 0x0 7 0 1\n",
        b"stale-hits 0\norder bad number 0\nword 0x0 9\n",
    ),
];

fn ends_with(alloc: Global, record: &[u8], end: &[u8]) -> Result<bool, AllocError> {
    let _inside: Option<Op> = None;
    let Ok(trace) = read(alloc, &mut source(b"0 R 0x0\n", 8, 8)) else {
        return Ok(false);
    };
    let Ok(records) = read_records(alloc, &mut source(record, 8, 8)) else {
        return Ok(false);
    };
    let run = TraceEnd {
        issued: 1,
        end: End::AllDone,
        counts: Counts::zeros(),
        stale: 0,
    };
    let report = trace_text(
        alloc,
        Layout::Lines,
        trace,
        &run,
        &records,
        &[(WordAddr::at(0), 9)],
    )?;
    Ok(report.as_slice().ends_with(end))
}

// A caller gives records of its own, and the report has a check's verdict on them.
#[test]
fn a_report_checks_its_records(rt: HostRuntime) {
    for (record, end) in REPORTS {
        assert_eq!(rt; ends_with(rt.alloc(), record, end), Ok(true));
    }
}
