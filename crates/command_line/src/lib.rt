//! The command line of the program: what its words ask for.
#![tactic(auto)]

mod app;
pub mod laws;
mod options;
mod words;

pub use words::{Job, WordsError, read_words};
