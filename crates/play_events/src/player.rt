//! The player of examples.

use crate::calls::{Call, read_call};
use crate::machines::Played;
use crate::ways::play_other_ways;
use event_text::{Cause, Cursor, Dialog, Example, NO_MEMORY, Page, Player, Reply, Turn};
use std::alloc::{AllocError, Global};
use std::io;
use std::io::Write;

/// Plays examples that begin with `machine`.
#[derive(Clone, Copy)]
pub(crate) struct EventPlayer;

/// The next line. It was read before, so only an allocation can fail.
pub(crate) fn next_readable_turn<'a>(
    cursor: &mut Cursor<'a>,
) -> Result<Option<Turn<'a>>, AllocError> {
    match cursor.next_turn() {
        Ok(turn) => Ok(turn),
        Err(_) => Err(AllocError),
    }
}

/// What a line asks for that was read before.
pub(crate) fn read_call_again(
    alloc: Global,
    turn: &Turn<'_>,
    line_words: u32,
) -> Result<Call, AllocError> {
    match read_call(alloc, turn, line_words) {
        Ok(call) => Ok(call),
        Err(_) => Err(AllocError),
    }
}

/// Plays a line.
pub(crate) fn play_turn(
    played: &mut Played,
    turn: &Turn<'_>,
    reply: &mut Reply,
) -> Result<(), AllocError> {
    reply.clear();
    reply.line_words = played.line_words();
    let call = read_call_again(played.alloc, turn, reply.line_words)?;
    played.play_call(call, reply);
    Ok(())
}

/// Plays a line, and writes the answer; if memory was refused to it, plays it once more where the command line asks
/// for that.
fn play_line<W: Write + Drop>(
    played: &mut Played,
    turn: &Turn<'_>,
    page: &mut Page<'_>,
    reply: &mut Reply,
    out: &mut W,
) -> io::Result<()> {
    play_turn(played, turn, reply)?;
    if page.how.again && reply.whole_text()? == NO_MEMORY {
        if turn.wanted.is_none() {
            page.report_unasked(turn, NO_MEMORY, out)?;
        }
        play_turn(played, turn, reply)?;
    }
    page.take_answer(turn, reply, out)
}

/// Plays a line that came, or tells why it can't be read.
fn answer_line<D: Dialog>(
    played: &mut Played,
    call: Result<Call, Cause>,
    dialog: &mut D,
    reply: &mut Reply,
) -> io::Result<()> {
    match call {
        Ok(call) => {
            reply.clear();
            reply.line_words = played.line_words();
            played.play_call(call, reply);
            dialog.take_answer(reply)
        }
        Err(cause) => dialog.refuse_line(cause),
    }
}

impl Player for EventPlayer {
    fn check_line(&self, alloc: Global, turn: &Turn<'_>) -> Result<(), Cause> {
        let _call = read_call(alloc, turn, 1)?;
        Ok(())
    }

    fn play_readable_example<W: Write + Drop>(
        &self,
        alloc: Global,
        example: &Example<'_>,
        page: &mut Page<'_>,
        out: &mut W,
    ) -> io::Result<()> {
        let mut played = Played::new(alloc);
        let mut reply = Reply::new(alloc);
        let mut cursor = example.cursor();
        for _ in 0..u64::MAX {
            let Some(turn) = next_readable_turn(&mut cursor)? else {
                break;
            };
            play_line(&mut played, &turn, page, &mut reply, out)?;
        }
        if page.how.three_ways {
            play_other_ways(&mut played, example, page, out)?;
        }
        Ok(())
    }

    fn answer_lines<D: Dialog>(&self, alloc: Global, dialog: &mut D) -> io::Result<()> {
        let mut played = Played::new(alloc);
        let mut reply = Reply::new(alloc);
        for _ in 0..u64::MAX {
            let Some(turn) = dialog.current_turn() else {
                break;
            };
            let call = read_call(alloc, &turn, played.line_words());
            answer_line(&mut played, call, dialog, &mut reply)?;
        }
        Ok(())
    }

    fn has_other_ways(&self) -> bool {
        true
    }
}
