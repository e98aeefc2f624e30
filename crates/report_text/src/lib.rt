//! The text that reports on the runs of a litmus test.
#![tactic(auto)]

mod ends;
mod lines;
mod run_end;
mod states;
mod sums;
mod text;

pub use lines::{put_named_values, quantifier_text};
pub use run_end::RunEnd;
pub use text::litmus_text;
