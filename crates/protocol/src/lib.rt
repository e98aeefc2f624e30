//! The protocol by lines: a machine that is no code but a relation, and the theorem on every state that it reaches.
//! README.md has the plan of the proof.
#![tactic(auto)]

pub mod laws;
