//! An ordered set of numbers with a rank: numbers come and go, and the one after so many others is found.
#![tactic(auto)]

mod blocks;
pub mod laws;
pub mod lines;
mod rising_list;
mod search;
pub mod selection;

pub use lines::RankedLines;
