//! The result of one run of a litmus test.

use litmus_reader::EndState;
use machine_table::Counts;
use programs::End;

/// The result of one run of a litmus test.
#[derive(Drop)]
pub struct RunEnd {
    pub end: End,
    /// The values of the names in the test's condition, if the run is all done.
    pub state: Option<EndState>,
    /// How many operations completed, over all threads.
    pub completed: u64,
    /// How many of these are stale hits: loads for which a store or swap of the same word has a smaller completion
    /// number and a greater timestamp.
    pub stale: u64,
    /// How many renewals, upgrades, flushes and write-backs were sent.
    pub counts: Counts,
}
