//! What a core is set up with.

/// The numbers that a core is set up with.
#[derive(Clone, Copy, Debug, PartialEq, Eq)]
pub struct CoreConfig {
    /// The core's number, below 64.
    pub number: u32,
    /// The number of banks, 1 to 8.
    pub banks: u32,
    /// The words of a line, 1 or 8.
    pub line_words: u32,
    /// How far a lease extends from a time, 1 to 2^32.
    pub lease: u64,
    /// Whether a core may write a line again without a later time, once it has written it.
    pub private_write: bool,
    /// The time at which the core opens.
    pub opening_time: u64,
}
