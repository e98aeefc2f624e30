//! The rule of a shared machine's seats: what all seats hold is together one state that moves reach.
#![tactic(auto)]

pub mod laws;
pub mod parts;
pub mod views;

pub use views::{Hold, SetUp, Stage};
