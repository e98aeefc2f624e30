//! What a check of records answers.

/// Whether records are a legal history, and if not, their first fault.
#[derive(Clone, Copy, Debug, PartialEq, Eq)]
pub enum Verdict {
    /// The records are what cores that run their issued lists in order, on one memory, would have.
    Legal,
    /// The least of the numbers 0 to n - 1 that none of the n records carries.
    BadNumber(u64),
    /// The number of a record that is not the next of its core's program order.
    OutOfProgramOrder(u64),
    /// The number of a record that received another value than the replay gives.
    WrongValue(u64),
}
