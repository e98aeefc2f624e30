//! Why a line can't be read.

use std::alloc::{AllocError, AllocFailed};

/// Why a line can't be read.
#[derive(Clone, Copy)]
pub enum Cause {
    Number,
    /// A number past 64 bits, or past 32 where a call takes only those.
    TooLarge,
    /// A number that falls below 0 in a turn.
    BelowZero,
    Drawers,
    Address,
    Unaligned,
    Message,
    Operation,
    Event,
    Seat,
    Bank,
    Call,
    Option,
    With,
    YesOrNo,
    KeepOrForget,
    MoreWords,
    NoCall,
    NoAnswer,
    NoTitle,
    NoExample,
    Beginning,
    Turns,
    Inside,
    Empty,
    NoEnd,
    NoRepeat,
    /// The player can't allocate memory to read the line: no fault of the line.
    NoMemory,
}

impl Cause {
    /// The player's message about it.
    pub fn text(self) -> &'static str {
        match self {
            Cause::Number => "a number is wanted",
            Cause::TooLarge => "a number is too large",
            Cause::BelowZero => "a number is below 0",
            Cause::Drawers => "a number from 1 to 16 is wanted",
            Cause::Address => "an address is wanted",
            Cause::Unaligned => "an address is a multiple of 8",
            Cause::Message => "a message is wanted",
            Cause::Operation => "an operation is wanted",
            Cause::Event => "an event is wanted",
            Cause::Seat => "core or bank is wanted",
            Cause::Bank => "bank is wanted",
            Cause::Call => "there is no such call",
            Cause::Option => "an option is wanted",
            Cause::With => "with is wanted",
            Cause::YesOrNo => "yes or no is wanted",
            Cause::KeepOrForget => "keep or forget is wanted",
            Cause::MoreWords => "a word too many",
            Cause::NoCall => "a call is wanted before the answer",
            Cause::NoAnswer => "an answer is wanted",
            Cause::NoTitle => "a title is wanted",
            Cause::NoExample => "an example is wanted",
            Cause::Beginning => "machine or seats or numbers is wanted",
            Cause::Turns => "a number of turns from 1 on is wanted",
            Cause::Inside => "a repeat inside another",
            Cause::Empty => "a repeat without a line",
            Cause::NoEnd => "a repeat without an end",
            Cause::NoRepeat => "there is no repeat to end",
            Cause::NoMemory => "no memory",
        }
    }
}

impl From<AllocError> for Cause {
    fn from(_error: AllocError) -> Cause {
        Cause::NoMemory
    }
}

impl<T: Drop> From<AllocFailed<T>> for Cause {
    fn from(_error: AllocFailed<T>) -> Cause {
        Cause::NoMemory
    }
}

/// The number of a line that can't be read, and why.
#[derive(Clone, Copy)]
pub struct Fault {
    pub line: usize,
    pub cause: Cause,
}
