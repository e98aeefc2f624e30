//! Sets of lines in order of use, with what is kept of each line: the shape of private caches and of banks.
#![tactic(auto)]

mod entries;
pub mod listed;
mod rows;
pub mod sets;

pub use listed::{LineTest, Listed};
pub use sets::LineSets;
