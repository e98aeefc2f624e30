//! The numbers of lines in rising order, where they are kept so.
ghost use Rattle.std.specs.Prelude.{◌≡◌, ◌≤◌, ◌<◌, ◌+◌, ◌*◌, false, IfOk, IsTrue, List, None, Some, length};
ghost use Rattle.std.specs.Prelude.{if◌then◌else◌, is_some, slice_get, ℕ};
ghost use Rattle.ranked_lines.specs.Rising.{all_but, put_in, room_of, sorted, take_out, HasRoom, IsExchanged};
ghost use Rattle.ranked_lines.specs.Rising.{IsOrderOf, Rises};

use crate::blocks::Blocks;
use std::alloc::{AllocError, Global};
use std::marker::Model;

/// Numbers of lines in rising order, or nothing. Contracts see the list, if there is one, and for how many blocks of
/// numbers it has room.
#[derive(Drop)]
pub struct RankedLines {
    numbers: Option<Blocks>,
    // Blocks of numbers that are kept no longer, whose memory stays.
    spare: Option<Blocks>,
}

impl Model for RankedLines {
    ghost use Rattle.std.specs.Prelude.{Option, List, ℕ};

    ghost Value = { Option (List ℕ × ℕ) };

    ghost view = { λ lines. lines.numbers };
}

/// A number goes out of a rising list, or comes into it; false where there is no room for it, and then nothing has
/// changed. There is room while there are fewer numbers than there may be.
#[inline(never)]
fn put_in_or_take_out(numbers: &mut Blocks, number: u64, goes: bool) -> bool
    ensures room { numbers.new.1 ≡ numbers.old.1 }
    ensures sure { (goes ≡ false → length numbers.old.0 + 32 < numbers.old.1 * 32) → IsTrue result }
    ensures numbers { numbers.new.0 ≡ (if result then (if goes then take_out number numbers.old.0 else
        put_in number numbers.old.0) else numbers.old.0) }
{
    if goes {
        numbers.take_out(number);
        return true;
    }
    numbers.put_in(number)
}

impl RankedLines {
    /// Nothing is kept.
    pub fn none() -> RankedLines
        ensures { result ≡ None }
    {
        RankedLines {
            numbers: None,
            spare: None,
        }
    }

    /// The numbers of a list that rises are kept, with room for so many numbers at most.
    pub fn of(alloc: Global, numbers: &[u64], most: usize) -> Result<RankedLines, AllocError>
        requires { Rises numbers.now }
        ensures { IfOk result (λ lines. (blocks : ℕ) × (lines ≡ Some (numbers.now, blocks)) ×
            HasRoom most (Some blocks)) }
    {
        let blocks = Blocks::of(alloc, numbers, most)?;
        Ok(RankedLines {
            numbers: Some(blocks),
            spare: None,
        })
    }

    /// Nothing is kept any longer. The memory of what was stays.
    pub fn pause(&mut self)
        ensures { self.new ≡ None }
    {
        if let Some(blocks) = self.numbers.take() {
            self.spare = Some(blocks);
        }
    }

    /// The numbers of a list are kept, rising, in memory that stayed, with room for so many numbers at most. Where none
    /// stayed that is enough, nothing changes, and the answer is false. No memory is taken.
    pub fn resume(&mut self, numbers: &[u64], most: usize) -> bool
        ensures kept { IsTrue result → (blocks : ℕ) × (self.new ≡ Some (sorted numbers.now, blocks)) ×
            HasRoom most (Some blocks) }
        ensures refused { result ≡ false → self.new ≡ self.old }
    {
        let Some(mut blocks) = self.spare.take() else {
            return false;
        };
        if !blocks.refill(numbers, most) {
            return false;
        }
        self.numbers = Some(blocks);
        true
    }

    /// A line comes, goes or stays: there were so many of it, none or one, and now there are so many. What is kept
    /// stays kept, in the same room, unless a line comes that there may be no room for. No memory is taken.
    #[inline(always)]
    pub fn change(&mut self, line: u64, before: usize, after: usize)
        requires before { before ≤ 1 }
        requires after { after ≤ 1 }
        ensures order { (xs ys : List ℕ) → IsOrderOf self.old xs → IsExchanged line before after xs ys →
            IsOrderOf self.new ys }
        ensures kept { (xs : List ℕ) → IsOrderOf self.old xs →
            (before < after → HasRoom (length xs) (room_of self.old)) →
            room_of self.new ≡ room_of self.old }
    {
        if before == after {
            return;
        }
        let Some(numbers) = &mut self.numbers else {
            return;
        };
        if !put_in_or_take_out(numbers, line, after < before) {
            self.numbers = None;
        }
    }

    /// The line that comes after so many others but that one, exactly if the lines are kept and there is one.
    pub fn nth(&self, but: &Option<u64>, at: usize) -> Option<u64>
        ensures { (xs : List ℕ) → IsOrderOf self.now xs → result ≡
            (if is_some self.now then slice_get (sorted (all_but but.now xs)) at else None) }
    {
        let Some(numbers) = &self.numbers else {
            return None;
        };
        numbers.nth(but, at)
    }
}
