//! Runs a litmus test on the machine that options ask for, by rounds, by seeds or by threads. It gives out the names of
//! all drivers.
#![tactic(auto)]

mod batches;
mod by_options;
mod finished;
pub mod laws;
mod one_run;
mod run_end;
mod set_up;
mod shared_runs;
mod threads;

pub use batches::{batch, policy_runs, seeded_runs};
pub use by_options::{policy_runs_by_options, runs_by_options};
pub use finished::Finished;
pub use programs::{End, OpProgram, Program, Step, StepProgram};
pub use report_text::RunEnd;
pub use schedules::{Driven, Policy, drive_fair_round, drive_round, drive_seed, run_to_end};
pub use set_up::{Driver, config_of, driver_of, limit_of, workers_of};
pub use shared_jobs::{Free, Gate};
pub use thread_driver::{Shift, ThreadRun, drive_seats, drive_threads, run_seats, run_threads};
pub use threads::threaded_runs;
