//! The numbers 0, 1, 2, .. drawn between threads, each once, by one addition to a shared word and without a lock.
#![tactic(auto)]

mod closing;
mod drawer;
mod numbers;
mod opening;
mod steps;
mod whole;

pub use drawer::{DrawError, Drawer};
pub use numbers::Numbers;
pub use opening::open_numbers;
