//! What a machine leaves when all its seats are given up.
use crate::outbox::Outbox;
use core_pts::Core;
use dram_mts::Dram;
use inbox::Inbox;
use llc_bank::Bank;
use network::Message;
use physiological_order::{Op, Record};
use seat_rule::SetUp;

/// What a core's seat leaves: all that it stored.
#[derive(Drop)]
pub struct CorePart {
    /// The number of the seat, which is that of the core.
    pub number: u32,
    pub core: Core,
    /// The operations that the core was issued, in their order.
    pub issued: Vec<Op>,
    /// The records of the core, in their order.
    pub records: Vec<Record>,
    /// The messages that were not put, and how many messages the seat sent.
    pub outbox: Outbox,
    /// The message that was taken and not served, and those that waited for the core.
    pub inbox: Inbox<Message>,
    /// Whether the seat was stopped: it answered that times don't fit, and since then every call that can refuse
    /// refuses.
    pub is_stopped: bool,
}

/// What a bank's seat leaves: all that it stored.
#[derive(Drop)]
pub struct BankPart {
    /// The number of the seat: that of the bank, after those of all cores.
    pub number: u32,
    pub bank: Bank,
    pub dram: Dram,
    /// The messages that were not put, and how many messages the seat sent.
    pub outbox: Outbox,
    /// The message that was taken and not served, and those that waited for the bank or its DRAM.
    pub inbox: Inbox<Message>,
    /// Whether the seat was stopped, as for a core's seat.
    pub is_stopped: bool,
}

/// A machine that no thread shares any more: the parts that its seats left, and what lay in the slots of its links.
#[derive(Drop)]
pub struct ClosedMachine {
    /// How the machine was set up, and the memory that it opened with.
    pub set_up: SetUp,
    /// The parts of the cores' seats, as the seats were given.
    pub cores: Vec<CorePart>,
    /// The parts of the banks' seats, likewise.
    pub banks: Vec<BankPart>,
    /// What lay in each slot, by number.
    pub slots: Vec<Option<Message>>,
    /// How many operations were completed.
    pub count: u64,
}
