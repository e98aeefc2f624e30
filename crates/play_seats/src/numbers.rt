//! Numbers, from their opening to the calls after their close.
ghost use Rattle.std.specs.Prelude.{◌<◌, ◌≤◌, IfOk};
ghost use Rattle.drawn_numbers.specs.Drawers.{AllDrawersOf};

use crate::calls::Call;
use crate::play::Play;
use drawn_numbers::{DrawError, Drawer, Numbers, open_numbers};
use event_text::{Dialog, NO_MACHINE, NO_MEMORY, Reply};
use std::io;

/// The most drawers that numbers have.
pub(crate) const MOST: u32 = 16;

/// The answer if there is no such drawer.
const NO_DRAWER: &str = "no drawer";

/// Drawn numbers, or `none`.
fn put_drawn_numbers(drawn: &[u64], out: &mut Reply) {
    for number in drawn {
        out.put_number(*number);
    }
    out.put_word_if_empty("none");
}

/// The drawer of a number draws.
fn put_next_drawn_number(numbers: &Numbers, drawers: &mut Vec<Drawer>, number: u32, out: &mut Reply)
    requires { AllDrawersOf numbers.now drawers.old.items }
    ensures { AllDrawersOf numbers.now drawers.new.items }
{
    let at = number as usize;
    if at >= drawers.len() {
        return out.put_word(NO_DRAWER);
    }
    match drawers[at].draw(numbers) {
        Ok(drawn) => out.put_number(drawn),
        Err(DrawError::NoMemory) => out.put_word(NO_MEMORY),
        Err(DrawError::TooMany) => out.put_word("refused TooMany"),
    }
}

/// What the drawer of a number drew.
fn put_numbers_of_drawer(drawers: &[Drawer], number: u32, out: &mut Reply) {
    match drawers.get(number as usize) {
        Some(drawer) => put_drawn_numbers(drawer.drawn.as_slice(), out),
        None => out.put_word(NO_DRAWER),
    }
}

/// What the drawer of a number drew, of the lists that the close left.
fn put_numbers_left(lists: &[Vec<u64>], number: u32, out: &mut Reply) {
    match lists.get(number as usize) {
        Some(list) => put_drawn_numbers(list.as_slice(), out),
        None => out.put_word(NO_DRAWER),
    }
}

/// Plays draws, up to a line that opens or closes.
fn play_open_numbers<D: Dialog>(
    play: &mut Play<'_, D>,
    numbers: &Numbers,
    drawers: &mut Vec<Drawer>,
) -> io::Result<()>
    requires { AllDrawersOf numbers.now drawers.old.items }
    ensures { AllDrawersOf numbers.now drawers.new.items }
{
    for _ in 0..u64::MAX {
        match play.current_call()? {
            None | Some(Call::Seats(_) | Call::Numbers(_) | Call::Close) => return Ok(()),
            Some(Call::Draw(drawer)) => put_next_drawn_number(
                numbers,
                drawers,
                drawer,
                &mut play.reply,
            ),
            Some(Call::Drawn(drawer)) => put_numbers_of_drawer(drawers, drawer, &mut play.reply),
            Some(_) => play.reply.put_word(NO_MACHINE),
        }
        play.take_answer()?;
    }
    Ok(())
}

/// Plays calls after the close, up to a line that opens.
fn play_closed_numbers<D: Dialog>(play: &mut Play<'_, D>, lists: &[Vec<u64>]) -> io::Result<()> {
    for _ in 0..u64::MAX {
        match play.current_call()? {
            None | Some(Call::Seats(_) | Call::Numbers(_)) => return Ok(()),
            Some(Call::Drawn(drawer)) => put_numbers_left(lists, drawer, &mut play.reply),
            Some(_) => play.reply.put_word(NO_MACHINE),
        }
        play.take_answer()?;
    }
    Ok(())
}

/// Closes the numbers with these drawers, which are all that they have, and plays the calls after that.
fn close_and_play_numbers<D: Dialog>(
    play: &mut Play<'_, D>,
    numbers: Numbers,
    drawers: Vec<Drawer>,
) -> io::Result<()>
    requires { AllDrawersOf numbers drawers.items }
{
    if !numbers.is_whole(drawers.as_slice()) {
        return play.answer_with("a drawer is missing");
    }
    let lists = numbers.close(drawers);
    play.answer_with("closed")?;
    play_closed_numbers(play, lists.as_slice())
}

/// Plays numbers with this many drawers: the line that opens them, and those after it, up to one that opens anew.
pub(crate) fn play_numbers<D: Dialog>(play: &mut Play<'_, D>, drawers: u32) -> io::Result<()>
    requires { (0 < drawers) × (drawers ≤ 16) }
{
    let Ok((numbers, mut drawers)) = open_numbers(play.alloc, drawers) else {
        return play.answer_with(NO_MEMORY);
    };
    play.answer_with("opened")?;
    play_open_numbers(play, &numbers, &mut drawers)?;
    if matches!(play.current_call()?, Some(Call::Close)) {
        return close_and_play_numbers(play, numbers, drawers);
    }
    Ok(())
}
