//! Drives the seats of a shared machine by threads: workers give seats turns, and programs give cores their steps. A
//! run by threads opens a machine, drives its seats and closes it.
#![tactic(auto)]

mod bank_turns;
mod core_turns;
mod counting;
mod dealing;
mod drive;
pub mod laws;
mod pass;
mod run;
mod seat_calls;
mod shift;
mod told;
mod work;
mod worker;

pub use bank_turns::{bank_turn, fair_bank_turn};
pub use core_turns::{core_turn, is_over};
pub use drive::{drive_seats, drive_threads};
pub use run::{ThreadRun, run_seats, run_threads};
pub use shift::Shift;
pub use told::Told;
