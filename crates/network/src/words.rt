//! The words of a line.
ghost use Rattle.std.specs.Prelude.{◌≡◌, ◌<◌, length, replicate, slice_index, slice_set};

use std::marker::Model;

/// The eight words of a line; if lines have one word, all but the first are 0. Contracts see the list.
#[derive(Clone, Copy, Debug, PartialEq, Eq)]
pub struct Words {
    values: [u64; 8],
}

impl Model for Words {
    ghost use Rattle.std.specs.Prelude.{List, ℕ};

    ghost Value = { List ℕ };

    ghost view = { λ words. words.values };

    ghost inverse = { λ values. record { values = values } };
}

impl Words {
    /// The most words that a line has.
    pub const MOST: usize = 8;

    /// Eight words of 0.
    pub fn zeros() -> Words
        ensures { result ≡ replicate 8 0 }
    {
        Words { values: [0; 8] }
    }

    /// The word at an index below 8.
    pub fn get(&self, index: usize) -> u64
        requires { index < 8 }
        ensures value { result ≡ slice_index self.now index }
        ensures eight { length self.now ≡ 8 }
    {
        self.values[index]
    }

    /// Sets the word at an index below 8.
    pub fn set(&mut self, index: usize, value: u64)
        requires { index < 8 }
        ensures after { self.new ≡ slice_set self.old index value }
        ensures eight { length self.new ≡ 8 }
    {
        self.values[index] = value;
    }
}
