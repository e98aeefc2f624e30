//! Lists every end of a litmus test on the sequential machine.
#![tactic(auto)]

mod ends;
mod error;
pub mod laws;
mod layers;
mod points;
mod rows;
mod words;

pub use ends::{Ends, MOST_STATES, list_ends};
pub use error::EndsError;

#[cfg(test)]
mod tests;
