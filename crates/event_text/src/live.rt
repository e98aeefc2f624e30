//! Calls as they come, for a program that drives a machine through a pipe: the answer to each line goes out before the
//! next one is read.

use crate::causes::Cause;
use crate::players::NO_MEMORY;
use crate::replies::Reply;
use crate::turns::Turn;
use std::io;
use std::io::{BufRead, Lines, Write};

/// Lines that are played one after the other, each with its answer.
pub trait Dialog: Drop {
    /// The line that is played now; none after the last one.
    fn current_turn(&self) -> Option<Turn<'_>>;

    /// Takes the answer to the line, and goes on to the next one.
    fn take_answer(&mut self, reply: &Reply) -> io::Result<()>;

    /// Takes why the line can't be read, and goes on to the next one.
    fn refuse_line(&mut self, cause: Cause) -> io::Result<()>;
}

/// The lines of an input, each of which is answered before the next one is read. Blank lines get no answer.
#[derive(Drop)]
pub(crate) struct Live<B: BufRead + Drop, W: Write + Drop> {
    lines: Lines<B>,
    out: W,
    line: Option<String>,
}

impl<B: BufRead + Drop, W: Write + Drop> Live<B, W> {
    /// Begins with the first line.
    pub(crate) fn new(lines: Lines<B>, out: W) -> io::Result<Live<B, W>> {
        let mut live = Live {
            lines,
            out,
            line: None,
        };
        live.read_next_line()?;
        Ok(live)
    }

    /// Goes on to the next line that says something.
    fn read_next_line(&mut self) -> io::Result<()> {
        self.line = None;
        for _ in 0..u64::MAX {
            let Some(line) = self.lines.next() else {
                break;
            };
            let line = line?;
            if !line.as_str().trim().is_empty() {
                self.line = Some(line);
                break;
            }
        }
        Ok(())
    }

    /// Answers the line, and goes on.
    fn write_answer(&mut self, about: &str, answer: &str) -> io::Result<()> {
        writeln!(self.out, "{about}{answer}")?;
        self.out.flush()?;
        self.read_next_line()
    }
}

impl<B: BufRead + Drop, W: Write + Drop> Dialog for Live<B, W> {
    fn current_turn(&self) -> Option<Turn<'_>> {
        let line = self.line.as_ref()?;
        Some(Turn {
            line: 1,
            call: line.as_str().trim(),
            wanted: None,
            turn: None,
        })
    }

    fn take_answer(&mut self, reply: &Reply) -> io::Result<()> {
        self.write_answer("", reply.whole_text()?)
    }

    fn refuse_line(&mut self, cause: Cause) -> io::Result<()> {
        match cause {
            Cause::NoMemory => self.write_answer("", NO_MEMORY),
            cause => self.write_answer("unread: ", cause.text()),
        }
    }
}
