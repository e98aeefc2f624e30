//! Why a line is refused.

ghost use Rattle.std.specs.Prelude.{◌≡◌, ◌≤◌, length};

use thiserror::Error;

/// What is wrong with a line of a trace, of records or of an opening (docs/TEXTS.md).
#[derive(Clone, Copy, Debug, PartialEq, Eq, Error)]
pub enum Kind {
    /// Reading failed. No line is refused for it.
    #[error("reading failed")]
    Read,
    /// Allocation failed. No line is refused for it.
    #[error("allocation failed")]
    NoMemory,
    /// A line with too many bytes. No line is refused for it here.
    #[error("a line that is too long")]
    TooLong,
    /// The first field is no number of a core.
    #[error("a bad core")]
    BadCore,
    /// The operation is missing, or is none.
    #[error("a bad operation")]
    BadOperation,
    /// The address is missing, or is none.
    #[error("a bad address")]
    BadAddress,
    /// A value, a place, a received value, a time or a completion number is missing, or is none.
    #[error("a bad value")]
    BadValue,
    /// Fields that follow a whole line.
    #[error("words that are too many")]
    ExtraWords,
    /// The form line names no form.
    #[error("a bad form")]
    BadForm,
    /// A word that an earlier line has. No line is refused for it here.
    #[error("a word that has its value already")]
    DoubleWord,
}

impl Kind {
    ghost use Rattle.trace_lines.specs.Kinds.{number_of_trace_kind, name_of_trace_kind};

    /// The kind's number, 1 to 10.
    pub fn number(self) -> u8
        ensures { result ≡ number_of_trace_kind self }
    {
        match self {
            Kind::Read => 1,
            Kind::NoMemory => 2,
            Kind::TooLong => 3,
            Kind::BadCore => 4,
            Kind::BadOperation => 5,
            Kind::BadAddress => 6,
            Kind::BadValue => 7,
            Kind::ExtraWords => 8,
            Kind::BadForm => 9,
            Kind::DoubleWord => 10,
        }
    }

    /// The kind's name, as it is written here, in 12 characters or fewer.
    pub fn name(self) -> &'static str
        ensures name { result.now ≡ name_of_trace_kind self }
        ensures short { length result.now ≤ 12 }
    {
        match self {
            Kind::Read => "Read",
            Kind::NoMemory => "NoMemory",
            Kind::TooLong => "TooLong",
            Kind::BadCore => "BadCore",
            Kind::BadOperation => "BadOperation",
            Kind::BadAddress => "BadAddress",
            Kind::BadValue => "BadValue",
            Kind::ExtraWords => "ExtraWords",
            Kind::BadForm => "BadForm",
            Kind::DoubleWord => "DoubleWord",
        }
    }
}

/// What is wrong, and in which line, counted from 1.
#[derive(Clone, Copy, Debug, PartialEq, Eq, Error)]
#[error("line {line}: {kind}")]
pub struct TraceError {
    /// The number of the line.
    pub line: usize,
    /// What is wrong with it.
    pub kind: Kind,
}
