//! The forms of a trace, and what an operation does to its word.

/// The form of a trace, which its first line with fields declares (docs/TEXTS.md).
#[derive(Clone, Copy, Debug, PartialEq, Eq)]
pub enum Form {
    /// Cores 0 to 15 and operations alone.
    One,
    /// Cores 0 to 63, operations and advances.
    Two,
}

/// What an operation does to its word.
#[derive(Clone, Copy, Debug)]
pub(crate) enum Access {
    Read,
    Write,
    /// Reads and writes.
    Swap,
}
