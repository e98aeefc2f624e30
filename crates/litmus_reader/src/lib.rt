//! Reads the text of a litmus test, and gives what a run of it needs.
#![tactic(auto)]

mod contents;
mod ends;
pub mod laws;
mod opening;
mod reading;
mod thread_programs;
mod threads;

pub use contents::Test;
pub use ends::EndState;
pub use litmus_lexer::{Kind, LitmusError};
pub use litmus_parser::{Name, Quantifier};
pub use reading::read;
pub use threads::ThreadState;
