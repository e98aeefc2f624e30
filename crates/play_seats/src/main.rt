//! Plays texts of seats, and of drawn numbers (docs/EVENTS.md, "Seats").
#![tactic(auto)]

mod answers;
mod calls;
mod looks;
mod machines;
mod numbers;
mod play;
mod reading;
mod runs;
mod seats;
mod states;
mod views;

use calls::Call;
use event_text::{Cause, Dialog, Example, NO_MACHINE, Page, Player, Turn, run_player};
use machines::play_machine;
use numbers::{MOST, play_numbers};
use play::{OfExample, Play};
use reading::read_seats_call;
use std::alloc::Global;
use std::io;
use std::io::Write;
use std::process::ExitCode;

/// Plays examples of seats and of numbers.
struct SeatPlayer;

/// Plays all lines.
fn play_all_lines<D: Dialog>(play: &mut Play<'_, D>) -> io::Result<()> {
    for _ in 0..u64::MAX {
        match play.current_call()? {
            None => return Ok(()),
            Some(Call::Seats(opening)) => play_machine(play, &opening)?,
            Some(Call::Numbers(drawers)) if 0 < drawers && drawers <= MOST => play_numbers(
                play, drawers,
            )?,
            Some(_) => play.answer_with(NO_MACHINE)?,
        }
    }
    Ok(())
}

impl Player for SeatPlayer {
    fn check_line(&self, alloc: Global, turn: &Turn<'_>) -> Result<(), Cause> {
        let _call = read_seats_call(alloc, &mut turn.call_words(1))?;
        Ok(())
    }

    fn play_readable_example<W: Write + Drop>(
        &self,
        alloc: Global,
        example: &Example<'_>,
        page: &mut Page<'_>,
        out: &mut W,
    ) -> io::Result<()> {
        self.answer_lines(alloc, &mut OfExample::new(example, page, out))
    }

    fn answer_lines<D: Dialog>(&self, alloc: Global, dialog: &mut D) -> io::Result<()> {
        play_all_lines(&mut Play::new(alloc, dialog))
    }

    fn has_other_ways(&self) -> bool {
        false
    }
}

fn main(rt: HostRuntime) -> ExitCode {
    ExitCode::from(run_player(&rt, &SeatPlayer))
}
