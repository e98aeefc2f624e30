//! How a run ends.

/// How a run ended.
#[derive(Clone, Copy, Debug, PartialEq, Eq)]
pub enum End {
    /// Every program is done.
    AllDone,
    /// A round made no progress.
    Stalled,
    /// The run has used all its rounds or turns.
    TurnsUsed,
    /// A sum of times doesn't fit 64 bits.
    Exhausted,
    /// Allocation failed.
    NoMemory,
}
