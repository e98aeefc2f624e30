//! What a bank keeps of a line, and what an eviction answers.

use line_sets::Listed;
use network::{Message, TimedLine};

/// What a bank keeps of a line that it has.
#[derive(Clone, Copy, Debug, PartialEq, Eq)]
pub enum Entry {
    /// The bank has asked DRAM for the words.
    Loading,
    /// The bank has the line; `dirty` if a core returned it since it came from DRAM.
    Shared { dirty: bool, line: TimedLine },
    /// A core owns the line.
    Exclusive { owner: u32 },
    /// A core owns the line, and the bank has asked it to return the line.
    Recalling { owner: u32 },
    /// The words are on their way to DRAM, and the line leaves when they are stored.
    Storing,
}

impl Entry {
    ghost use Rattle.std.specs.Prelude.{◌≡◌};
    ghost use Rattle.llc_bank.specs.Settled.{is_settled, is_shared};

    /// Whether nothing is under way for the line: it is Shared or Exclusive.
    pub fn is_settled(&self) -> bool
        ensures { result ≡ is_settled self.now }
    {
        matches!(self, Entry::Shared { .. } | Entry::Exclusive { .. })
    }

    /// Whether the bank has the line and no core owns it.
    pub fn is_shared(&self) -> bool
        ensures { result ≡ is_shared self.now }
    {
        matches!(self, Entry::Shared { .. })
    }
}

impl Listed for Entry {
    ghost use Rattle.llc_bank.specs.Settled.{is_settled};

    ghost is_listed = { is_settled };

    fn is_listed(&self) -> bool {
        self.is_settled()
    }
}

/// What an eviction did.
#[derive(Clone, Copy, Debug, PartialEq, Eq)]
pub enum Evict {
    /// The line is gone: DRAM has its words.
    Clean,
    /// The line's words go to DRAM by this message.
    Stored(Message),
    /// The bank asks the owner to return the line by this message; the line stays.
    Recalled(Message),
}

/// Why a line can't be evicted.
#[derive(Clone, Copy, Debug, PartialEq, Eq)]
pub enum EvictError {
    /// 1: the bank does not have the line.
    NotHere,
    /// 2: the line is being loaded, recalled or stored.
    Busy,
}

impl EvictError {
    ghost use Rattle.std.specs.Prelude.{◌≡◌};

    /// The error's number.
    pub fn number(self) -> u8
        ensures not_here { self ≡ EvictError.NotHere → result ≡ 1 }
        ensures busy { self ≡ EvictError.Busy → result ≡ 2 }
    {
        match self {
            EvictError::NotHere => 1,
            EvictError::Busy => 2,
        }
    }
}
