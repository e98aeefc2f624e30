//! What can be seen of a seat, while it is open and as it was when its machine was closed.

use core_pts::Core;
use dram_mts::Dram;
use inbox::Inbox;
use llc_bank::Bank;
use mailboxes::{BankPart, BankSeat, CorePart, CoreSeat, Outbox};
use network::{LineNo, Message};
use physiological_order::Op;

/// What only a seat has that is open.
#[derive(Clone, Copy)]
pub(crate) struct Open {
    /// The slot at which the next look begins.
    pub cursor: usize,
    pub is_stopped: bool,
    /// The line that makes room in a bank.
    pub room: Option<LineNo>,
}

/// The messages of a seat.
#[derive(Clone, Copy)]
pub(crate) struct Mail<'a> {
    pub inbox: &'a Inbox<Message>,
    pub outbox: &'a Outbox,
    pub open: Option<Open>,
}

/// A core's seat.
#[derive(Clone, Copy)]
pub(crate) struct CoreView<'a> {
    pub core: &'a Core,
    /// The operations that it was issued.
    pub issued: &'a [Op],
    /// How many it completed.
    pub records: usize,
    pub mail: Mail<'a>,
}

/// A bank's seat.
#[derive(Clone, Copy)]
pub(crate) struct BankView<'a> {
    pub bank: &'a Bank,
    pub dram: &'a Dram,
    pub mail: Mail<'a>,
}

/// A core's seat that is open.
pub(crate) fn view_open_core(seat: &CoreSeat) -> CoreView<'_> {
    CoreView {
        core: seat.core(),
        issued: seat.issued(),
        records: seat.completed(),
        mail: Mail {
            inbox: seat.inbox(),
            outbox: seat.outbox(),
            open: Some(Open {
                cursor: seat.cursor(),
                is_stopped: seat.is_stopped(),
                room: None,
            }),
        },
    }
}

/// A bank's seat that is open.
pub(crate) fn view_open_bank(seat: &BankSeat) -> BankView<'_> {
    BankView {
        bank: seat.bank(),
        dram: seat.dram(),
        mail: Mail {
            inbox: seat.inbox(),
            outbox: seat.outbox(),
            open: Some(Open {
                cursor: seat.cursor(),
                is_stopped: seat.is_stopped(),
                room: seat.make_room(),
            }),
        },
    }
}

fn view_closed_core(part: &CorePart) -> CoreView<'_> {
    CoreView {
        core: &part.core,
        issued: part.issued.as_slice(),
        records: part.records.len(),
        mail: Mail {
            inbox: &part.inbox,
            outbox: &part.outbox,
            open: None,
        },
    }
}

fn view_closed_bank(part: &BankPart) -> BankView<'_> {
    BankView {
        bank: &part.bank,
        dram: &part.dram,
        mail: Mail {
            inbox: &part.inbox,
            outbox: &part.outbox,
            open: None,
        },
    }
}

/// What the core of a number left, if it is there.
pub(crate) fn find_closed_core(cores: &[CorePart], number: u32) -> Option<CoreView<'_>> {
    for part in cores {
        if part.number == number {
            return Some(view_closed_core(part));
        }
    }
    None
}

/// What the bank left whose seat has this number, if it is there.
pub(crate) fn find_closed_bank(banks: &[BankPart], seat: u64) -> Option<BankView<'_>> {
    for part in banks {
        if u64::from(part.number) == seat {
            return Some(view_closed_bank(part));
        }
    }
    None
}
