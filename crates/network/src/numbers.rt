//! The numbers of lines and of messages.

use std::marker::Model;

/// The number of a line: a word's number divided by the words of a line, rounded down. Contracts see the number.
#[derive(Clone, Copy, Debug, PartialEq, Eq, PartialOrd, Ord, Hash)]
pub struct LineNo(pub u64);

impl Model for LineNo {
    ghost use Rattle.std.specs.Prelude.{ℕ};

    ghost Value = { ℕ };

    ghost view = { λ line. line.0 };

    ghost inverse = { λ n. record { 0 = n } };
}

/// The number of a message, in the order of sending from 0. Contracts see the number.
#[derive(Clone, Copy, Debug, PartialEq, Eq, PartialOrd, Ord, Hash)]
pub struct MsgNo(pub u64);

impl Model for MsgNo {
    ghost use Rattle.std.specs.Prelude.{ℕ};

    ghost Value = { ℕ };

    ghost view = { λ message. message.0 };

    ghost inverse = { λ n. record { 0 = n } };
}
