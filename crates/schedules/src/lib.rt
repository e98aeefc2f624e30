//! Drives a machine by a schedule: programs give its cores their steps, and each event that the machine is given is the
//! one that the schedule has next. docs/SCHEDULES.md has the schedules.
#![tactic(auto)]

mod driven;
pub mod laws;
mod log;
mod look_ups;
mod pace;
pub mod policies;
mod policy;
mod round;
pub mod rounds;
mod run;
mod schedule;
mod seed;
pub mod seeds;
mod turn;
mod watcher;

pub use driven::Driven;
pub use pace::Pace;
pub use policies::{run_on, run_to_end, run_watched};
pub use policy::Policy;
pub use rounds::{drive_fair_round, drive_round};
pub use seeds::drive_seed;
pub use watcher::Watcher;
