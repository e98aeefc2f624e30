//! The moves of a machine's parts make only transitions of the protocol by lines. So what holds of every machine that
//! the protocol reaches holds after any moves, and after any list of events.
#![tactic(auto)]

pub mod laws;
pub mod move_laws;
