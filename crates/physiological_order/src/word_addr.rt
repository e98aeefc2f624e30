//! The address of a memory word.
ghost use Rattle.std.specs.Prelude.{◌≡◌, ◌+◌, ◌*◌, ◌/◌, ◌%◌, ◌<◌, ◌^◌};
ghost use Rattle.std.specs.Option.{SomeIff};

use std::marker::Model;

/// The address of a word of eight bytes; contracts see its number, the address divided by eight.
#[derive(Clone, Copy, Debug, PartialEq, Eq, PartialOrd, Ord, Hash)]
pub struct WordAddr {
    word: u64,
}

impl Model for WordAddr {
    ghost use Rattle.std.specs.Prelude.{ℕ, ◌<◌, ◌^◌};

    ghost Value = { ℕ };

    ghost view = { λ a. a.word };

    ghost invariant = { λ a. a.word < 2 ^ 61 };

    ghost inverse = { λ n. record { word = n } };
}

impl WordAddr {
    /// The word at a byte address; `None` if the address is not a multiple of eight.
    pub fn new(byte: u64) -> Option<WordAddr>
        ensures { SomeIff result (byte % 8 ≡ 0) (byte / 8) }
    {
        if byte % 8 == 0 {
            Some(WordAddr { word: byte / 8 })
        } else {
            None
        }
    }

    /// The word of this number, below 2^61, which is its byte address divided by 8.
    pub fn at(word: u64) -> WordAddr
        requires { word < 2 ^ 61 }
        ensures { result ≡ word }
    {
        WordAddr { word }
    }

    /// The number of the word: its byte address divided by 8.
    pub fn word(self) -> u64
        ensures number { result ≡ self }
        ensures bound { self < 2 ^ 61 }
    {
        self.word
    }

    /// The byte address of the word.
    pub fn byte(self) -> u64
        ensures { result ≡ 8 * self }
    {
        8 * self.word
    }
}
