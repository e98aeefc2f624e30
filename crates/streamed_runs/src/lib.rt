//! Runs a trace that is read as the run goes, in the memory of the machine.
#![tactic(auto)]

mod completed;
mod piece;
mod streamed_run;
mod summary;

pub use streamed_run::StreamedRun;
