//! What a bank is set up with.

/// A bank's place in the machine, its shape, and the times that it starts with.
#[derive(Clone, Copy, Debug, PartialEq, Eq)]
pub struct BankConfig {
    /// The bank's number, below `banks`.
    pub number: u32,
    /// The number of banks in the machine, 1 to 8.
    pub banks: u32,
    /// The number of sets, 1 to 1,024.
    pub sets: u32,
    /// How many ways each set has, 1 to 16.
    pub ways: u32,
    /// How far a lease extends from a time, 1 to 4,294,967,296.
    pub lease: u64,
    /// The memory time at which the bank opens.
    pub opening_time: u64,
}
