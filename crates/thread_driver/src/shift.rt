//! The seats and programs of a machine, after they were driven.
use mailboxes::{BankSeat, CoreSeat};
use programs::End;

/// The result of driving seats: how it ended, and all seats and programs, in the order in which they were given
/// (docs/SCHEDULES.md).
#[derive(Drop)]
pub struct Shift<P: Drop> {
    pub end: End,
    pub cores: Vec<CoreSeat>,
    pub banks: Vec<BankSeat>,
    pub programs: Vec<P>,
}
