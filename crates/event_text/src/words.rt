//! The words of a call, from the left.

use crate::causes::Cause;
use crate::turned::{Kind, is_digits, kind_and_number_in_turn};
use network::{LineNo, MsgNo};
use physiological_order::{Op, WordAddr};
use std::str::SplitAsciiWhitespace;

/// A core's seat, or a bank's.
#[derive(Clone, Copy)]
pub enum Seat {
    Core(u32),
    Bank(u32),
}

/// What may follow a call's name.
#[derive(Clone, Copy)]
pub enum Part {
    Nothing,
    /// A number of 32 bits.
    Small,
    Number,
    Line,
    Message,
}

/// The words that are left of a call, or of a part of one.
#[derive(Drop)]
pub struct Words<'a> {
    left: SplitAsciiWhitespace<'a>,
    turn: Option<u64>,
    line_words: u32,
}

impl<'a> Words<'a> {
    /// The words of a text in a turn of a repetition, if it is in one. A line of memory has `line_words` words, or one
    /// if that is 0.
    pub fn new(text: &'a str, turn: Option<u64>, line_words: u32) -> Words<'a> {
        Words {
            left: text.split_ascii_whitespace(),
            turn,
            line_words: line_words.max(1),
        }
    }

    /// The next word, if there is one.
    pub fn next_word(&mut self) -> Option<&'a str> {
        self.left.next()
    }

    /// The next word, which must be there.
    pub fn required_word(&mut self, cause: Cause) -> Result<&'a str, Cause> {
        self.next_word().ok_or(cause)
    }

    /// No word is left.
    pub fn expect_end(&mut self) -> Result<(), Cause> {
        match self.next_word() {
            None => Ok(()),
            Some(_) => Err(Cause::MoreWords),
        }
    }

    /// The number of the next word, which must be there and of this kind.
    fn number_of_kind(&self, word: &str, wanted: Kind, cause: Cause) -> Result<u64, Cause> {
        match kind_and_number_in_turn(word, self.turn)? {
            Some((kind, number)) if kind == wanted => Ok(number),
            _ => Err(cause),
        }
    }

    /// The number that a word stands for.
    pub fn number_of_word(&self, word: &str) -> Result<u64, Cause> {
        let is_large = is_digits(word, false);
        let cause = if is_large {
            Cause::TooLarge
        } else {
            Cause::Number
        };
        self.number_of_kind(word, Kind::Number, cause)
    }

    /// The number of 32 bits that a word stands for.
    pub fn small_number_of_word(&self, word: &str) -> Result<u32, Cause> {
        match u32::try_from(self.number_of_word(word)?) {
            Ok(number) => Ok(number),
            Err(_) => Err(Cause::TooLarge),
        }
    }

    /// The word at an address that a word stands for.
    pub fn address_of_word(&self, word: &str) -> Result<WordAddr, Cause> {
        let byte = self.number_of_kind(word, Kind::Address, Cause::Address)?;
        WordAddr::new(byte).ok_or(Cause::Unaligned)
    }

    /// The next word, a number.
    pub fn next_number(&mut self) -> Result<u64, Cause> {
        let word = self.required_word(Cause::Number)?;
        self.number_of_word(word)
    }

    /// The next word, a number of 32 bits.
    pub fn next_small_number(&mut self) -> Result<u32, Cause> {
        let word = self.required_word(Cause::Number)?;
        self.small_number_of_word(word)
    }

    /// The next word, an address.
    pub fn next_address(&mut self) -> Result<WordAddr, Cause> {
        let word = self.required_word(Cause::Address)?;
        self.address_of_word(word)
    }

    /// The next word, a line: by the address of one of its words, or by its number.
    pub fn next_line_number(&mut self) -> Result<LineNo, Cause> {
        let word = self.required_word(Cause::Number)?;
        if !word.starts_with("0x") {
            return Ok(LineNo(self.number_of_word(word)?));
        }
        let address = self.address_of_word(word)?;
        Ok(LineNo(address.word() / u64::from(self.line_words.max(1))))
    }

    /// The next word, the number of a message, as `m3`.
    pub fn next_message_number(&mut self) -> Result<MsgNo, Cause> {
        let word = self.required_word(Cause::Message)?;
        Ok(MsgNo(self.number_of_kind(word, Kind::Message, Cause::Message)?))
    }

    /// The operation that begins with a word and goes on with the next ones.
    pub fn operation_from_word(&mut self, kind: &str) -> Result<Op, Cause> {
        if kind != "R" && kind != "W" && kind != "S" {
            return Err(Cause::Operation);
        }
        let address = self.next_address()?;
        if kind == "R" {
            return Ok(Op::Load(address));
        }
        let value = self.next_number()?;
        if kind == "W" {
            return Ok(Op::Store(address, value));
        }
        Ok(Op::Swap(address, value))
    }

    /// The next words, an operation.
    pub fn next_operation(&mut self) -> Result<Op, Cause> {
        let kind = self.required_word(Cause::Operation)?;
        self.operation_from_word(kind)
    }

    /// The seat that begins with a word and goes on with the next one.
    pub fn seat_from_word(&mut self, kind: &str) -> Result<Seat, Cause> {
        if kind == "core" {
            return Ok(Seat::Core(self.next_small_number()?));
        }
        if kind == "bank" {
            return Ok(Seat::Bank(self.next_small_number()?));
        }
        Err(Cause::Seat)
    }

    /// The next two words, a seat.
    pub fn next_seat(&mut self) -> Result<Seat, Cause> {
        let kind = self.required_word(Cause::Seat)?;
        self.seat_from_word(kind)
    }

    /// The number that a part stands for; 0 for nothing.
    pub fn next_part(&mut self, part: Part) -> Result<u64, Cause> {
        match part {
            Part::Nothing => Ok(0),
            Part::Small => Ok(u64::from(self.next_small_number()?)),
            Part::Number => self.next_number(),
            Part::Line => Ok(self.next_line_number()?.0),
            Part::Message => Ok(self.next_message_number()?.0),
        }
    }
}

/// What a table has in the row of a name.
pub fn table_row_of_name<K: Copy>(table: &[(&str, K)], name: &str) -> Option<K> {
    for (of, row) in table {
        if *of == name {
            return Some(*row);
        }
    }
    None
}
