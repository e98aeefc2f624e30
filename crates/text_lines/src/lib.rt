//! What the readers of texts share: the lines of a text, and reading from left to right up to the first fault.
#![tactic(auto)]

mod first_lines;
pub mod laws;

pub use first_lines::{line_length, split_line};
