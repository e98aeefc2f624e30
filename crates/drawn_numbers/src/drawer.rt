//! One that draws numbers.
ghost use Rattle.std.specs.Prelude.{◌≡◌, ℕ, ◌≤◌, ◌<◌, ◌++◌, ◌∷◌, [], length, vec_capacity, IfOk, OnErr, Err, false};
ghost use Rattle.drawn_numbers.specs.Ties.{DrawerTied};

use crate::numbers::Numbers;
use crate::steps::{CounterSeat, draw_next};
use std::alloc::AllocError;

// How many numbers a drawer draws at most.
const LIMIT: usize = 4294967296;

/// Why no number was drawn (README.md).
#[derive(Clone, Copy, Debug, PartialEq, Eq)]
pub enum DrawError {
    /// 1: allocation failed.
    NoMemory,
    /// 2: this drawer has drawn 4,294,967,296 numbers.
    TooMany,
}

impl DrawError {
    ghost use Rattle.std.specs.Prelude.{◌≡◌};

    /// The error's number, as above.
    pub fn number(self) -> u8
        ensures no_memory { self ≡ DrawError.NoMemory → result ≡ 1 }
        ensures too_many { self ≡ DrawError.TooMany → result ≡ 2 }
    {
        match self {
            DrawError::NoMemory => 1,
            DrawError::TooMany => 2,
        }
    }
}

/// A drawer of numbers, with all that it drew, in order.
#[derive(Drop)]
pub struct Drawer {
    pub seat: CounterSeat,
    pub number: u32,
    pub drawn: Vec<u64>,
    pub ghost tied: { DrawerTied seat number drawn.items },
}

impl Drawer {
    ghost use Rattle.drawn_numbers.specs.Drawn.{AllBelow};
    ghost use Rattle.drawn_numbers.specs.Drawers.{IsDrawerOf};
    ghost use Rattle.drawn_numbers.specs.declared.drawer.DrawError.TheVariants.{NoMemory, TooMany};

    /// Draws the next number, by one addition to the word that all drawers share.
    pub fn draw(&mut self, numbers: &Numbers) -> Result<u64, DrawError>
        requires { IsDrawerOf numbers.now self.old }
        ensures drawer { IsDrawerOf numbers.now self.new × (self.new.number ≡ self.old.number) }
        ensures kept { IfOk result (λ n.
            self.new.drawn.items ≡ self.old.drawn.items ++ n ∷ []) }
        ensures rising { IfOk result (λ n. AllBelow n self.old.drawn.items) }
        ensures refused { OnErr result ((self.new.drawn.items ≡ self.old.drawn.items) ×
            (self.new.seat ≡ self.old.seat)) }
        ensures many { length self.old.drawn.items ≡ 4294967296 → result ≡ Err TooMany }
        ensures not_many { length self.old.drawn.items < 4294967296 → ¬ (result ≡ Err TooMany) }
        ensures no_memory { result ≡ Err NoMemory →
            vec_capacity self.old.drawn ≤ length self.old.drawn.items }
    {
        if self.drawn.len() >= LIMIT {
            return Err(DrawError::TooMany);
        }
        match self.drawn.reserve(1) {
            Ok(()) => {}
            Err(AllocError) => return Err(DrawError::NoMemory),
        }
        let number = draw_next(&numbers.table.shared, &mut self.seat);
        self.drawn.push_reserved(number);
        Ok(number)
    }
}
