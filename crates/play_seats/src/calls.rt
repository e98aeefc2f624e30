//! The calls of the language (docs/EVENTS.md, "Seats"): those that change a seat, look something up, open or close.

use event_text::Opening;
use network::LineNo;
use physiological_order::{Op, WordAddr};

/// What any seat does.
#[derive(Clone, Copy)]
pub(crate) enum OfSeat {
    Evict(LineNo),
    Put,
    Take,
    Serve,
    Turn,
}

/// What a core's seat does.
#[derive(Clone, Copy)]
pub(crate) enum OfCore {
    Issue(Op),
    Attempt,
    Advance,
    Seat(OfSeat),
}

/// What can be looked up of the messages of any seat.
#[derive(Clone, Copy)]
pub(crate) enum MailLook {
    Hand,
    /// The held message at an index.
    Held(u32),
    Places,
    Outbox,
    Sent,
    Cursor,
    Stopped,
}

/// What can be looked up of a core's seat.
#[derive(Clone, Copy)]
pub(crate) enum CoreLook {
    Open,
    Victim(LineNo),
    Time,
    Copy(LineNo),
    /// The operations that the core was issued.
    Issued,
    /// How many it completed.
    Records,
    Mail(MailLook),
    /// All of the seat, with this many words.
    State(u32),
}

/// What can be looked up of a bank's seat.
#[derive(Clone, Copy)]
pub(crate) enum BankLook {
    Time,
    Entry(LineNo),
    /// The words of a line in the DRAM behind the bank.
    Dram(LineNo),
    /// The line that makes room.
    Room,
    Mail(MailLook),
    /// All of the seat, with this many words.
    State(u32),
}

/// What can be looked up of a closed run.
#[derive(Clone, Copy)]
pub(crate) enum RunLook {
    Records,
    /// The record of a number.
    Record(u64),
    Stale,
    Check,
    Arranged,
    Word(WordAddr),
    Owners(LineNo),
    Sent,
    /// The message in a slot.
    Slot(u64),
    Slots,
}

/// A call of the language. It names cores, banks and drawers by number.
#[derive(Drop)]
pub(crate) enum Call {
    /// Opens a machine of seats.
    Seats(Opening),
    /// Opens numbers with this many drawers.
    Numbers(u32),
    Core(u32, OfCore),
    Bank(u32, OfSeat),
    CoreLook(u32, CoreLook),
    BankLook(u32, BankLook),
    RunLook(RunLook),
    /// A drawer draws.
    Draw(u32),
    /// All that a drawer drew.
    Drawn(u32),
    /// Closes what is open.
    Close,
}
