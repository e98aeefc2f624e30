//! Why a text is refused.

ghost use Rattle.std.specs.Prelude.{◌≡◌, ◌≤◌, length};
ghost use Rattle.litmus_lexer.specs.declared.errors.ReadError.TheVariants.{Memory, Fault};

use std::alloc::{AllocError, AllocFailed};
use thiserror::Error;

/// What is wrong with a text.
#[derive(Clone, Copy, Debug, PartialEq, Eq, Error)]
pub enum Kind {
    /// Allocation failed; the line is then 0.
    #[error("allocation failed")]
    NoMemory,
    /// A limit is passed. If the whole text is too long, the line is 1.
    #[error("a limit is passed")]
    TooLarge,
    /// A byte that is not allowed.
    #[error("a byte that is not allowed")]
    BadByte,
    /// The first line or a header line.
    #[error("a bad header line")]
    BadHeader,
    /// The initial block, or an item for a thread that the table does not have.
    #[error("a bad item of the initial block")]
    BadInitial,
    /// A register or a location that is set twice.
    #[error("a name that is set twice")]
    DoubleInitial,
    /// The table's header row, or the shape of a row.
    #[error("a bad header row or a row of another shape")]
    BadTable,
    /// A cell that is no instruction.
    #[error("a cell that is no instruction")]
    BadInstruction,
    /// A number that is too large.
    #[error("a number that is too large")]
    ValueRange,
    /// An instruction of a second width.
    #[error("an instruction of a second width")]
    MixedWidth,
    /// An address register that an instruction reads or writes as a value, or one in the condition.
    #[error("an address register that is used as a value")]
    AddressAsValue,
    /// A register in parentheses that is no address register.
    #[error("a register in parentheses that is no address register")]
    ValueAsAddress,
    /// The condition, or a thread in it that the table does not have.
    #[error("a bad condition")]
    BadCondition,
    /// The text ends too early; the line is its last one.
    #[error("the text ends too early")]
    CutShort,
}

impl Kind {
    ghost use Rattle.litmus_lexer.specs.Kinds.{number_of_kind, name_of_kind};

    /// The kind's number, 1 to 14.
    pub fn number(self) -> u8
        ensures { result ≡ number_of_kind self }
    {
        match self {
            Kind::NoMemory => 1,
            Kind::TooLarge => 2,
            Kind::BadByte => 3,
            Kind::BadHeader => 4,
            Kind::BadInitial => 5,
            Kind::DoubleInitial => 6,
            Kind::BadTable => 7,
            Kind::BadInstruction => 8,
            Kind::ValueRange => 9,
            Kind::MixedWidth => 10,
            Kind::AddressAsValue => 11,
            Kind::ValueAsAddress => 12,
            Kind::BadCondition => 13,
            Kind::CutShort => 14,
        }
    }

    /// The kind's name, as it is written here, in 14 characters or fewer.
    pub fn name(self) -> &'static str
        ensures name { result.now ≡ name_of_kind self }
        ensures short { length result.now ≤ 14 }
    {
        match self {
            Kind::NoMemory => "NoMemory",
            Kind::TooLarge => "TooLarge",
            Kind::BadByte => "BadByte",
            Kind::BadHeader => "BadHeader",
            Kind::BadInitial => "BadInitial",
            Kind::DoubleInitial => "DoubleInitial",
            Kind::BadTable => "BadTable",
            Kind::BadInstruction => "BadInstruction",
            Kind::ValueRange => "ValueRange",
            Kind::MixedWidth => "MixedWidth",
            Kind::AddressAsValue => "AddressAsValue",
            Kind::ValueAsAddress => "ValueAsAddress",
            Kind::BadCondition => "BadCondition",
            Kind::CutShort => "CutShort",
        }
    }
}

/// What is wrong, and in which line, counted from 1.
#[derive(Clone, Copy, Debug, PartialEq, Eq, Error)]
#[error("line {line}: {kind}")]
pub struct LitmusError {
    pub line: usize,
    pub kind: Kind,
}

/// Why reading stops.
#[derive(Clone, Copy, Debug, PartialEq, Eq, Error)]
pub enum ReadError {
    /// Allocation failed.
    #[error("allocation failed")]
    Memory,
    /// The text has a fault.
    #[error("{0}")]
    Fault(LitmusError),
}

impl ReadError {
    /// A fault of this kind in this line.
    pub fn at(line: usize, kind: Kind) -> ReadError
        ensures { result ≡ Fault (record { line = line; kind = kind }) }
    {
        ReadError::Fault(LitmusError { line, kind })
    }
}

impl<T: Drop> From<AllocFailed<T>> for ReadError {
    ghost from_gives = { λ _ e. e ≡ Memory };

    fn from(_e: AllocFailed<T>) -> ReadError {
        ReadError::Memory
    }
}

impl From<AllocError> for ReadError {
    ghost from_gives = { λ _ e. e ≡ Memory };

    fn from(_e: AllocError) -> ReadError {
        ReadError::Memory
    }
}
