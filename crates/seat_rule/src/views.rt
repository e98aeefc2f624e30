//! How a machine is set up, and what a seat of it holds. Only proofs use stages and holds; no value of them is made.
use core_pts::Core;
use dram_mts::Dram;
use llc_bank::Bank;
use machine_table::Config;
use network::{Counts, Message};
use physiological_order::{Memory, Op, Record};
use std::collections::LinkedList;

/// How the machine was set up, and the memory that it opened with. The laws require a good configuration.
#[derive(Drop)]
pub struct SetUp {
    /// Cores and banks, their sizes and leases; the capacity for messages is not used.
    pub config: Config,
    /// The words that the machine opened with; all others are 0.
    pub memory: Memory,
}

/// Whether a slot is out with the seat.
pub enum Stage {
    /// None is.
    Idle,
    /// The slot of this number, which the seat writes.
    Writing(u64),
    /// The slot of this number, whose message the seat reads.
    Reading(u64, Message),
}

/// What a seat holds, and what it has done. A core's seat has a core, and a bank's seat a bank and its DRAM; what a
/// seat doesn't have stays as it opens.
pub struct Hold {
    pub core: Core,
    pub bank: Bank,
    pub dram: Dram,
    /// The operations that the core was issued, in their order.
    pub issued: LinkedList<Op>,
    /// The records of the core, in their order.
    pub records: LinkedList<Record>,
    /// How many of the counted kinds of message the seat's parts sent.
    pub counts: Counts,
    /// The messages of the seat: those that go out, the one that it took and has not served, and those that wait.
    pub outbox: LinkedList<Message>,
    pub hand: Option<Message>,
    pub held: LinkedList<Message>,
    /// The messages put and taken, each with its slot.
    pub put: LinkedList<(u64, Message)>,
    pub taken: LinkedList<(u64, Message)>,
    /// The slots looked at, each with the word found.
    pub looks: LinkedList<(u64, u64)>,
    /// All seats' records up to its last completion, by number.
    pub seen: LinkedList<Record>,
    pub stage: Stage,
}
