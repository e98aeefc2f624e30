//! A machine behind a handle that a caller in C keeps.
#![tactic(auto)]

pub mod handle;
mod owner;
mod parts;

pub use handle::{Handle, put_back, take_out};
pub use owner::Owner;
