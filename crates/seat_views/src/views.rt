//! What a seat knows.
use std::collections::LinkedList;

/// What a seat knows: its number and what it holds. The first seat also counts how many were made, itself included,
/// and any seat knows what the seats held that were joined to it. Only proofs use it; no value of it is made.
pub struct View<H> {
    pub number: u64,
    pub mine: H,
    /// How many seats were made, of the first seat; 0 of the others.
    pub made: u64,
    /// The seats that were joined to this one, each with its number.
    pub known: LinkedList<(u64, H)>,
    /// This seat was joined to another, and does nothing any more.
    pub spent: bool,
}
