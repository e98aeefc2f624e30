//! The private cache of a core: sets of copies of lines in order of use.
#![tactic(auto)]

pub mod cache;
pub mod line_copy;

pub use cache::{Cache, CacheError, Geometry};
pub use line_copy::{CopyState, LineCopy};
