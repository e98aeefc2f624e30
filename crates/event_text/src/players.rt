//! What a program does that plays texts. Of files, each text is read, and its examples are played one after the other;
//! lines that come are answered one by one.

use crate::causes::{Cause, Fault};
use crate::command_line::{Manner, Wishes, has_live_option};
use crate::live::{Dialog, Live};
use crate::pages::Page;
use crate::texts::{Example, Text};
use crate::turns::Turn;
use std::alloc::{AllocError, Global};
use std::io::{BufWriter, Write};
use std::rt::{Env, Files};
use std::{env, fs, io};

/// The answer to a call for which memory can't be allocated.
pub const NO_MEMORY: &str = "refused NoMemory";

/// The answer to a call if there is no machine.
pub const NO_MACHINE: &str = "no machine";

/// What plays examples, and lines that come.
pub trait Player {
    /// Reads a line that is played, to see whether it can be read.
    fn check_line(&self, alloc: Global, turn: &Turn<'_>) -> Result<(), Cause>;

    /// Plays an example whose lines can all be read.
    fn play_readable_example<W: Write + Drop>(
        &self,
        alloc: Global,
        example: &Example<'_>,
        page: &mut Page<'_>,
        out: &mut W,
    ) -> io::Result<()>;

    /// Plays lines, also such as can't be read, to the last one.
    fn answer_lines<D: Dialog>(&self, alloc: Global, dialog: &mut D) -> io::Result<()>;

    /// Whether there is a second and a third way to play an example.
    fn has_other_ways(&self) -> bool;
}

/// Reads all lines of an example; the first fault.
fn check_lines_of_example<P: Player>(
    player: &P,
    alloc: Global,
    example: &Example<'_>,
) -> Result<(), Fault> {
    let mut cursor = example.cursor();
    for _ in 0..u64::MAX {
        let Some(turn) = cursor.next_turn()? else {
            break;
        };
        if let Err(cause) = player.check_line(alloc, &turn) {
            return Err(Fault {
                line: turn.line,
                cause,
            });
        }
    }
    Ok(())
}

/// Plays an example, or reports why a line of it can't be read.
fn play_example<P: Player, W: Write + Drop>(
    player: &P,
    alloc: Global,
    example: &Example<'_>,
    page: &mut Page<'_>,
    out: &mut W,
) -> io::Result<()> {
    match check_lines_of_example(player, alloc, example) {
        Ok(()) if example.has_heading() => {
            page.begin_example();
            player.play_readable_example(alloc, example, page, out)?;
            page.end_example(out)
        }
        Ok(()) => Ok(()),
        Err(fault) => match fault.cause {
            Cause::NoMemory => Err(io::Error::from(AllocError)),
            cause => page.report_fault(fault.line, cause.text(), out),
        },
    }
}

/// Plays a text; the exit status that it asks for.
fn play_text<R: AllocGlobal + Eprint, P: Player, W: Write + Drop>(
    rt: &R,
    player: &P,
    name: &str,
    content: &str,
    how: Manner,
    out: &mut W,
) -> io::Result<u8> {
    let alloc = rt.alloc();
    let text = Text::new(alloc, content)?;
    let mut page = Page::new(alloc, name, text.lines().len(), how)?;
    let mut at = 0;
    for _ in 0..text.lines().len() {
        let Some(example) = text.example_at(at) else {
            break;
        };
        at = example.end_index();
        play_example(player, alloc, &example, &mut page, out)?;
    }
    page.end_text(text.lines(), out)?;
    eprint!(rt; "{}", page.faults)?;
    Ok(page.exit_status())
}

/// The text of a file, or of standard input.
fn read_file_or_input<R: AllocGlobal + Input + Files>(rt: &R, name: &str) -> io::Result<String> {
    if name == "-" {
        return io::read_to_string(rt.alloc(), rt.reader());
    }
    fs::read_to_string(rt, name)
}

/// Plays the files that the command line names; the exit status.
fn play_named_files<R, P: Player, W: Write + Drop>(
    rt: &R,
    player: &P,
    wishes: &Wishes,
    out: &mut W,
) -> io::Result<u8>
where
    R: AllocGlobal + Input + Eprint + Files,
{
    let mut status = 0;
    for name in &wishes.files {
        let content = read_file_or_input(rt, name.as_str())?;
        let (name, content) = (name.as_str(), content.as_str());
        let of_text = play_text(rt, player, name, content, wishes.how, out)?;
        status = of_text.max(status);
    }
    Ok(status)
}

/// What the words of the command line ask for.
fn read_wishes<R: AllocGlobal + Env>(rt: &R, has_ways: bool) -> io::Result<Option<Wishes>> {
    let words = env::args(rt)?.collect(rt.alloc())?;
    match Wishes::new(rt.alloc(), words)? {
        Some(wishes) if wishes.how.three_ways && !has_ways => Ok(None),
        wishes => Ok(wishes),
    }
}

/// Plays the files that the command line names. What was reported before a fault is written, too.
fn play_files<R, P: Player>(rt: &R, player: &P) -> io::Result<u8>
where
    R: AllocGlobal + Input + Print + Eprint + Files + Env,
{
    let Some(wishes) = read_wishes(rt, player.has_other_ways())? else {
        rt.eprintln("bad command line")?;
        return Ok(3);
    };
    let mut out = BufWriter::new(rt.alloc(), io::writer(rt))?;
    let played = play_named_files(rt, player, &wishes, &mut out);
    out.flush()?;
    played
}

/// Plays lines as they come.
fn play_live<R, P: Player>(rt: &R, player: &P) -> io::Result<u8>
where
    R: AllocGlobal + Input + Print,
{
    let alloc = rt.alloc();
    let mut live = Live::new(rt.lines(alloc), io::writer(rt))?;
    player.answer_lines(alloc, &mut live)?;
    Ok(0)
}

/// Plays what the command line asks for: lines as they come, for `--live` alone, or else files. The exit status.
pub fn run_player<R, P: Player>(rt: &R, player: &P) -> u8
where
    R: AllocGlobal + Input + Print + Eprint + Files + Env,
{
    let played = match has_live_option(rt) {
        Ok(true) => play_live(rt, player),
        Ok(false) => play_files(rt, player),
        Err(error) => Err(error),
    };
    match played {
        Ok(status) => status,
        Err(error) => {
            let _told = rt.eprintln(error);
            4
        }
    }
}
