//! The line that is played now, of an example whose lines can all be read, or of those that come.

use crate::calls::Call;
use crate::reading::read_seats_call;
use event_text::{Cause, Cursor, Dialog, Example, NO_MEMORY, Page, Reply, Turn};
use std::alloc::{AllocError, Global};
use std::io;
use std::io::Write;

/// The lines of an example, and where its answers go.
#[derive(Drop)]
pub(crate) struct OfExample<'t, 'p, 'b, 'o, W> {
    cursor: Cursor<'t>,
    now: Option<Turn<'t>>,
    // whether the line was refused, and is played once more
    is_again: bool,
    page: &'p mut Page<'b>,
    out: &'o mut W,
}

/// The next line, which can be read.
fn next_readable_turn<'a>(cursor: &mut Cursor<'a>) -> Option<Turn<'a>> {
    match cursor.next_turn() {
        Ok(turn) => turn,
        Err(_) => None,
    }
}

impl<'t, 'p, 'b, 'o, W: Write + Drop> OfExample<'t, 'p, 'b, 'o, W> {
    /// Begins with the first line.
    pub fn new(
        example: &Example<'t>,
        page: &'p mut Page<'b>,
        out: &'o mut W,
    ) -> OfExample<'t, 'p, 'b, 'o, W> {
        let mut cursor = example.cursor();
        let now = next_readable_turn(&mut cursor);
        OfExample {
            cursor,
            now,
            is_again: false,
            page,
            out,
        }
    }
}

impl<W: Write + Drop> Dialog for OfExample<'_, '_, '_, '_, W> {
    fn current_turn(&self) -> Option<Turn<'_>> {
        self.now
    }

    /// Goes on to this line again, if it is played once more.
    fn take_answer(&mut self, reply: &Reply) -> io::Result<()> {
        let Some(turn) = self.now else {
            return Ok(());
        };
        self.page.take_answer(&turn, reply, self.out)?;
        self.is_again = !self.is_again && self.page.how.again && reply.whole_text()? == NO_MEMORY;
        if !self.is_again {
            self.now = next_readable_turn(&mut self.cursor);
        }
        Ok(())
    }

    /// The line was read before, so only an allocation can have failed.
    fn refuse_line(&mut self, _cause: Cause) -> io::Result<()> {
        Err(io::Error::from(AllocError))
    }
}

/// Lines, and the answer to the one that is played now.
#[derive(Drop)]
pub(crate) struct Play<'d, D> {
    pub alloc: Global,
    /// The answer to the line.
    pub reply: Reply,
    dialog: &'d mut D,
}

impl<'d, D: Dialog> Play<'d, D> {
    /// Begins with the first line.
    pub fn new(alloc: Global, dialog: &'d mut D) -> Play<'d, D> {
        Play {
            alloc,
            reply: Reply::new(alloc),
            dialog,
        }
    }

    /// The call that is played now, of the first line from here on that can be read; none after the last line.
    pub fn current_call(&mut self) -> io::Result<Option<Call>> {
        for _ in 0..u64::MAX {
            let Some(turn) = self.dialog.current_turn() else {
                break;
            };
            match read_seats_call(self.alloc, &mut turn.call_words(self.reply.line_words)) {
                Ok(call) => return Ok(Some(call)),
                Err(cause) => self.dialog.refuse_line(cause)?,
            }
        }
        Ok(None)
    }

    /// Takes the answer, and goes on to the next line, or to this one again if it is played once more.
    pub fn take_answer(&mut self) -> io::Result<()> {
        self.dialog.take_answer(&self.reply)?;
        self.reply.clear();
        Ok(())
    }

    /// Takes this answer, and goes on.
    pub fn answer_with(&mut self, answer: &str) -> io::Result<()> {
        self.reply.put_word(answer);
        self.take_answer()
    }
}
