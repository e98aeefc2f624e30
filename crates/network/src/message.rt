//! Messages between cores, banks and the DRAM behind each bank.

use crate::numbers::LineNo;
use crate::words::Words;

/// An end of a message.
#[derive(Clone, Copy, Debug, PartialEq, Eq)]
pub enum Node {
    Core(u32),
    Bank(u32),
    /// The DRAM behind the bank of this number.
    Dram(u32),
}

/// A line's words, valid from the time of their last write to the end of their lease.
#[derive(Clone, Copy, Debug, PartialEq, Eq)]
pub struct TimedLine {
    /// The time of the last write: the line's version.
    pub wts: u64,
    /// The time up to which the words may be read.
    pub rts: u64,
    pub words: Words,
}

/// What a message says.
#[derive(Clone, Copy, Debug, PartialEq, Eq)]
pub enum Body {
    /// Core to bank: the core, at time `pts`, asks to read, and has the copy of this version, or none.
    ShReq { pts: u64, version: Option<u64> },
    /// Core to bank: the core asks to own the line, and has the copy of this version, or none.
    ExReq { version: Option<u64> },
    /// Bank to core: the line, to read.
    ShRep(TimedLine),
    /// Bank to core: the line, to own.
    ExRep(TimedLine),
    /// Bank to core: the copy that the core has may be read up to this time.
    RenewRep { rts: u64 },
    /// Bank to core: the core owns the copy that it has, which others may read up to this time.
    UpgradeRep { rts: u64 },
    /// Bank to owner: return the line and keep no copy.
    FlushReq,
    /// Bank to owner: return the line and keep a copy to read, leased at least to this time.
    WbReq { rts: u64 },
    /// Owner to bank: the line, of which the core keeps no copy.
    FlushRep(TimedLine),
    /// Owner to bank: the line, of which the core keeps a copy to read.
    WbRep(TimedLine),
    /// Bank to its DRAM: load the line.
    DramLd,
    /// DRAM to its bank: the line's words.
    DramLdRep(Words),
    /// Bank to its DRAM: store the line's words.
    DramSt(Words),
    /// DRAM to its bank: the words are stored.
    DramStRep,
}

/// A message of one node to another about one line.
#[derive(Clone, Copy, Debug, PartialEq, Eq)]
pub struct Message {
    pub from: Node,
    pub to: Node,
    pub line: LineNo,
    pub body: Body,
}
