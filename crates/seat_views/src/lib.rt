//! Seats by number: the first seat makes the others, each changes what it holds itself, and at the end one takes in
//! what all others know. A seat may hold values of any type.
#![tactic(auto)]

pub mod laws;
pub mod views;

pub use views::View;
