//! The options of a run (its machine, its schedule, how often a test is run), of a list of ends, and of a check of
//! records.
#![tactic(auto)]

pub mod laws;
mod options;

pub use options::{
    CheckOptions, EndsOptions, LitmusOptions, MachineOptions, RunOptions, Schedule, StreamOptions,
    TraceOptions,
};
