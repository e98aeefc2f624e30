//! The events of a machine and its answers.
ghost use Rattle.std.specs.Prelude.{◌≡◌};
ghost use Rattle.machine_table.specs.RefusalNumbers.{number_of};

use network::{LineNo, MsgNo};
use physiological_order::{Op, Record};

/// One thing that happens to a machine.
#[derive(Clone, Copy, Debug, PartialEq, Eq)]
pub enum Event {
    /// A core is given its next operation.
    Issue(u32, Op),
    /// A core tries to complete its open operation, or sends the request that it needs.
    Attempt(u32),
    /// A message in flight is delivered to its part.
    Deliver(MsgNo),
    /// A copy of a line is evicted from a core's cache.
    EvictCache(u32, LineNo),
    /// A bank evicts a line, or asks its owner to return it.
    EvictBank(u32, LineNo),
    /// A core advances its time by one.
    Advance(u32),
}

/// Why an event changed nothing (but `Exhausted`, which stops the machine).
#[derive(Clone, Copy, Debug, PartialEq, Eq)]
pub enum Refusal {
    /// An operation is open; the entry is being loaded, recalled or stored.
    Busy,
    /// The core was issued 4,294,967,295 operations.
    TooMany,
    /// There is no such core, bank, message in flight, copy or entry.
    NoSuch,
    /// The core needs a request, has no copy of the line, and the line's set is full.
    NoRoom,
    /// The open operation is on the line.
    Pinned,
    /// The capacity for messages in flight is used up, or message numbers are.
    NetworkFull,
    /// Allocation failed.
    NoMemory,
    /// A sum of times does not fit 64 bits.
    Exhausted,
    /// An earlier event was answered `Exhausted`.
    Stopped,
}

impl Refusal {
    /// The refusal's number, 1 to 9 in the order above: docs/PROTOCOL.md lists them.
    pub fn number(self) -> u8
        ensures { result ≡ number_of self }
    {
        match self {
            Refusal::Busy => 1,
            Refusal::TooMany => 2,
            Refusal::NoSuch => 3,
            Refusal::NoRoom => 4,
            Refusal::Pinned => 5,
            Refusal::NetworkFull => 6,
            Refusal::NoMemory => 7,
            Refusal::Exhausted => 8,
            Refusal::Stopped => 9,
        }
    }
}

/// The answer to an event.
#[derive(Clone, Copy, Debug, PartialEq, Eq)]
pub enum Answer {
    Issued,
    /// The open operation is completed, with this record.
    Completed(Record),
    /// A request was sent.
    Requested,
    /// The request is out, and the copy does not serve the operation yet.
    Waiting,
    /// No operation is open.
    Idle,
    /// The message is consumed, and answered if its kind is answered.
    Delivered,
    /// The message is consumed and had no effect.
    Dropped,
    /// The message stays in flight, and nothing changed.
    Held,
    /// The message stays in flight, and another was sent on its behalf.
    Started,
    /// The copy or the line is gone, or a dirty line is on its way to DRAM.
    Evicted,
    /// The bank asks the owner to return the line; the line stays.
    Recalled,
    Advanced,
    Refused(Refusal),
}
