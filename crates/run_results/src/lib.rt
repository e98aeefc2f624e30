//! The result of a run of the program: done, or an error with its number, its line on standard error and its exit
//! status.
#![tactic(auto)]

mod line;
mod results;

pub use line::{ErrorLine, error_line};
pub use results::{Done, RunError, exit_status};
