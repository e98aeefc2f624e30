//! Operations on memory words, and the records that completed ones leave.
ghost use Rattle.std.specs.Prelude.{◌≡◌, ◌<◌, ◌^◌};
ghost use Rattle.physiological_order.specs.Order.{address};

use crate::word_addr::WordAddr;

/// An operation of a core on one word.
#[derive(Clone, Copy, Debug, PartialEq, Eq)]
pub enum Op {
    /// Receives the word's value.
    Load(WordAddr),
    /// Sets the word to the value.
    Store(WordAddr, u64),
    /// Receives the word's value and sets the word to the given one, in one step.
    Swap(WordAddr, u64),
}

impl Op {
    /// The address of the operation's word.
    pub fn addr(self) -> WordAddr
        ensures { result ≡ address self }
    {
        match self {
            Op::Load(addr) | Op::Store(addr, _) | Op::Swap(addr, _) => addr,
        }
    }

    /// The number of the operation's word: its byte address divided by 8.
    pub fn word(self) -> u64
        ensures number { result ≡ address self }
        ensures bound { address self < 2 ^ 61 }
    {
        self.addr().word()
    }
}

/// What a completed operation leaves.
#[derive(Clone, Copy, Debug, PartialEq, Eq)]
pub struct Record {
    /// The number of the core.
    pub core: u32,
    /// The operation's place in the core's program order, counted from 0.
    pub place: u32,
    pub op: Op,
    /// The value received: `None` for a store alone.
    pub received: Option<u64>,
    /// The timestamp.
    pub ts: u64,
    /// The completion number: operations are numbered from 0 as they complete.
    pub number: u64,
}
