//! Plays texts of examples on the machine (docs/EVENTS.md).
#![tactic(auto)]

mod calls;
mod counts;
mod drives;
mod histories;
mod lists;
mod looks;
mod machines;
mod player;
mod states;
mod turns;
mod ways;

use event_text::run_player;
use player::EventPlayer;
use std::process::ExitCode;

fn main(rt: HostRuntime) -> ExitCode {
    ExitCode::from(run_player(&rt, &EventPlayer))
}
