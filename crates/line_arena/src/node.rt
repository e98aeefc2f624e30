//! What the arena keeps of a cell and of a list.

/// A cell that was used: its neighbours, its list, and its value. A neighbour that isn't below the number of cells is
/// the end of the list. A free cell has no value, the number of lists as its list, and the next free cell as its next
/// one.
#[derive(Drop)]
pub struct Node<T> {
    pub(crate) prev: u32,
    pub(crate) next: u32,
    pub(crate) list: u32,
    pub(crate) item: Option<T>,
}

/// The first and the last cell of a list, and how many it has.
#[derive(Clone, Copy)]
pub struct Head {
    pub(crate) first: u32,
    pub(crate) last: u32,
    pub(crate) count: u32,
}

/// The neighbours of a cell, and the list that it is on.
#[derive(Clone, Copy)]
pub struct Position {
    pub(crate) prev: u32,
    pub(crate) next: u32,
    pub(crate) list: u32,
}
