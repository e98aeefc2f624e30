//! The plain sequential machine of a litmus test, as a relation, and its theorem: a legal history with each thread
//! performed to its end is a run of it.
#![tactic(auto)]

pub mod laws;
