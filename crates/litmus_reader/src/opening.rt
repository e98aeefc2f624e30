//! The memory that a test opens.

ghost use Rattle.std.specs.Prelude.{◌≡◌, false, IfOk, IsOk, OnOk};
ghost use Rattle.std.specs.List.{list_any};
ghost use Rattle.std.specs.FinMap as finite;
ghost use Rattle.litmus_reader.specs.TestViews.{test_of};
ghost use Rattle.litmus_reader.specs.OpeningMemory.{is_of_location, with_setting, words_opened};

use crate::contents::Test;
use crate::threads::location_address;
use litmus_parser::{Item, Name, Setting};
use physiological_order::Memory;
use std::alloc::AllocError;

/// Sets the word of an item that sets a location.
fn set_location_word(memory: &mut Memory, item: Item) -> Result<(), AllocError>
    ensures set { OnOk result (memory.new ≡ with_setting item.name item.setting memory.old) }
    ensures sure { is_of_location item.name ≡ false → IsOk result }
{
    match (item.name, item.setting) {
        (Name::Location(location), Setting::Number(value)) => {
            memory.set(location_address(location), u64::from(value))
        }
        _ => Ok(()),
    }
}

impl Test {
    /// The memory as the test opens it: the words that the initial block sets; every other word
    /// is 0.
    #[tactic(auto, unfolding(crate::specs::OpeningMemory::words_opened))]
    pub fn opening(&self) -> Result<Memory, AllocError>
        ensures memory { IfOk result (λ memory.
            memory ≡ words_opened (test_of self.now).items finite.empty) }
        // If no item sets a location, it takes no memory.
        ensures sure { list_any (λ item. is_of_location item.0) (test_of self.now).items ≡ false →
            IsOk result }
    {
        let mut memory = Memory::new(self.alloc);
        let mut left = self.items.as_slice();
        while let Some((item, rest)) = left.split_first() {
            set_location_word(&mut memory, *item)?;
            left = rest;
        }
        Ok(memory)
    }
}
