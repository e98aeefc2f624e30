//! Programs: what gives a core its steps, and how a run of programs ends.
#![tactic(auto)]

mod ends;
pub mod laws;
mod lists;
pub mod program;
mod steps;

pub use ends::End;
pub use lists::{OpProgram, StepProgram};
pub use program::Program;
pub use steps::Step;
