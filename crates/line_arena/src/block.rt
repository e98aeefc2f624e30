//! One block of memory as safe code sees it: a row of places, each empty or with a value.
ghost use Rattle.std.specs.Prelude.{◌≡◌, ℕ, ◌^◌, ◌<◌, Option, Some, None, length, replicate, get_or, slice_set, IfOk};
ghost use Rattle.std.specs.Borrow.{sem};
ghost use Rattle.line_arena.specs.Filled.{IsFilled};

use crate::cells::{Base, Cells, Claim, allocate, deallocate};
use std::alloc::{AllocError, Global};
use std::marker::Model;
use std_alloc::room::may_hold;

/// A row of places in one block. Contracts see the list of what they hold.
pub struct Block<T> {
    base: Base<T>,
    capacity: usize,
    cells: Cells<T>,
    claim: Claim<T, Global>,
    alloc: Global,
}

impl<T> Model for Block<T> {
    ghost use Rattle.std.specs.Prelude.{◌≡◌, List, Option, length};
    ghost use Rattle.std.specs.Coded.{coded_list, coded_option};

    ghost Value = { List (Option T) };

    ghost coded = { coded_list (coded_option T.code) };

    ghost view = { λ b. b.cells.slots };

    ghost invariant = { λ b. (b.cells.at ≡ b.base.ptr) × (b.claim.at ≡ b.base.ptr) × (b.claim.len ≡ b.capacity)
        × (b.claim.alloc ≡ b.alloc) × (length b.cells.slots ≡ b.capacity) };
}

impl<T> Block<T> {
    ghost use Rattle.line_arena.specs.BlockLends.{lends_place};

    /// Empty places.
    pub(crate) fn new(alloc: Global, capacity: usize) -> Result<Block<T>, AllocError>
        ensures { IfOk result (λ b. b ≡ replicate capacity None) }
    {
        if !may_hold::<T>(capacity) {
            return Err(AllocError);
        }
        let (base, cells, claim) = allocate(&alloc, capacity)?;
        Ok(Block {
            base,
            capacity,
            cells,
            claim,
            alloc,
        })
    }

    /// Frees the memory. Every place has to be empty.
    pub(crate) fn release(self)
        requires { self ≡ replicate (length self) None }
    {
        let Block {
            base,
            capacity,
            cells,
            claim,
            alloc,
        } = self;
        deallocate(&alloc, base, capacity, cells, claim);
    }

    /// Moves a value into an empty place.
    #[inline(always)]
    pub(crate) fn put(&mut self, index: usize, item: T)
        requires within { index < length self.old }
        requires empty { get_or self.old index None ≡ None }
        ensures { self.new ≡ slice_set self.old index (Some item) }
    {
        self.cells.write(self.base, index, item)
    }

    /// Moves the value of a place out.
    #[inline(always)]
    pub(crate) fn take(&mut self, index: usize) -> T
        requires { IsFilled self.old index }
        ensures value { get_or self.old index None ≡ Some result }
        ensures after { self.new ≡ slice_set self.old index None }
    {
        self.cells.read(self.base, index)
    }

    /// The value of a place.
    #[inline(always)]
    pub(crate) fn get(&self, index: usize) -> &T
        requires { IsFilled self.now index }
        ensures { get_or self.now index None ≡ Some result.now }
    {
        self.cells.get(self.base, index)
    }

    /// The value of a place, to write to.
    #[inline(always)]
    pub(crate) fn get_mut(&mut self, index: usize) -> &mut T
        requires { IsFilled self.old index }
        ensures* writes_back { sem 𝓛 (lends_place T.row self.entry index result) }
        ensures value { get_or self.old index None ≡ Some result.now }
    {
        let base = self.base;
        self.cells.get_mut(base, index)
    }
}
