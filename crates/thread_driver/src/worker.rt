//! A worker, with what it was dealt.
use crate::told::Told;
use mailboxes::{BankSeat, CoreSeat};
use stop_flags::Signaler;

/// A worker: how it signals the others, the seats of its cores with their programs, by index, and the seats of its
/// banks.
#[derive(Drop)]
pub struct Worker<P: Drop> {
    pub signaler: Signaler,
    pub cores: Vec<CoreSeat>,
    pub programs: Vec<P>,
    pub banks: Vec<BankSeat>,
    /// What all turns of its seats reported.
    pub told: Told,
    /// Nothing: what follows lies on another line of the cache, and is another worker's.
    pub room: [u64; 16],
}

/// How far workers go: the number of all programs, and the most turns of each seat. And whether banks have fair turns.
#[derive(Clone, Copy)]
pub struct Rota {
    pub programs: u64,
    pub turns: u32,
    pub fair: bool,
}

/// What is dealt to workers, or was, by worker: the seats of cores, their programs, and the seats of banks.
#[derive(Drop)]
pub struct Hands<P: Drop> {
    pub cores: Vec<Vec<CoreSeat>>,
    pub programs: Vec<Vec<P>>,
    pub banks: Vec<Vec<BankSeat>>,
}
