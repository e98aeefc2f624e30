//! An arena: lists of values whose cells lie in one block of memory, with the links inside them.
#![tactic(auto)]

mod arena;
mod block;
mod cells;
mod chains;
pub mod laws;
mod node;

pub use arena::{Arena, ArenaError, Cell};
#[doc(hidden)]
pub use block::Block;
#[doc(hidden)]
pub use cells::{Base, Cells, Claim};
#[doc(hidden)]
pub use chains::Chains;
#[doc(hidden)]
pub use node::{Head, Node, Position};
