//! The raw memory of an arena: one block of places. A place is empty, or it holds a value.
//!
//! The functions here are the only ones of the crate that follow a pointer, and each is proved by hand. The owner of
//! the places is apart from the pointer and takes no bytes, so no function has to read a pointer out of a struct.
ghost use Rattle.std.specs.Prelude.{◌≡◌, ℕ, ◌<◌, List, Option, Some, None, length, replicate, get_or, slice_set};
ghost use Rattle.std.specs.Prelude.{IfOk, ⊤};
ghost use Rattle.std.specs.Borrow.{sem};
ghost use Rattle.std.specs.Vec.Ownership.{FitsInBlock};
ghost use base.Fml.{ftrue};
ghost use denote.RawPtr.{Ptr};
ghost use Rattle.line_arena.specs.Filled.{IsFilled};
ghost use Rattle.line_arena.specs.Ownership.{row_at, lent_row_at, block_claim};

use std::alloc::{AllocError, Allocator};
use std::marker::{Model, PhantomData, Send, Sync};
use std::mem::{align_of, size_of};

/// The address of the first place. It owns nothing, so it is copied freely.
pub struct Base<T> {
    ptr: *mut T,
}

impl<T> Clone for Base<T> {
    ghost is_clone = { λ a b. b ≡ a };

    ghost is_infallible = { λ _. ⊤ };

    fn clone(&self) -> Result<Base<T>, AllocError> {
        Ok(*self)
    }
}

impl<T> Copy for Base<T> {}

unsafe impl<T> Send for Base<T> {}

unsafe impl<T> Sync for Base<T> {}

/// Owns the places from the address `at` on, and what they hold. It takes no bytes.
pub struct Cells<T> {
    own: PhantomData<*const T>,
    ghost at: { Ptr },
    ghost slots: { List (Option T) },
}

impl<T> Model for Cells<T> {
    ghost also_owns = { λ cells. row_at T.row cells.at cells.slots };

    ghost also_shares = { λ cells _ κ. lent_row_at T.row cells.at cells.slots κ };
}

unsafe impl<T: Send> Send for Cells<T> {}

unsafe impl<T: Sync> Sync for Cells<T> {}

/// The right to return a block of `len` places at the address `at` to the allocator `alloc`. It takes no bytes.
pub struct Claim<T, A: Allocator> {
    own: PhantomData<*const (T, A)>,
    ghost at: { Ptr },
    ghost len: { ℕ },
    ghost alloc: { A },
}

impl<T, A: Allocator> Model for Claim<T, A> {
    ghost also_owns = { λ claim. block_claim T.row (A.dealloc_token claim.alloc) claim.at claim.len };

    ghost also_shares = { λ _ _ _. ftrue };
}

unsafe impl<T, A: Allocator + Send> Send for Claim<T, A> {}

// Nothing can be done with a `&` to a claim.
unsafe impl<T, A: Allocator> Sync for Claim<T, A> {}

/// A new block of `len` empty places.
pub(crate) fn allocate<T, A: Allocator>(
    alloc: &A,
    len: usize,
) -> Result<(Base<T>, Cells<T>, Claim<T, A>), AllocError>
    requires { FitsInBlock T.row len }
    ensures cells { IfOk result (λ new. (new.1.at ≡ new.0.ptr) ×
        (new.1.slots ≡ replicate len None)) }
    ensures claim { IfOk result (λ new. (new.2.at ≡ new.0.ptr) × (new.2.len ≡ len) ×
        (new.2.alloc ≡ alloc.now)) }
{
    match alloc.allocate(len * size_of::<T>(), align_of::<T>()) {
        Ok(block) => {
            let base = Base {
                ptr: block as *mut T,
            };
            Ok((base, Cells { own: PhantomData }, Claim { own: PhantomData }))
        }
        Err(error) => Err(error),
    }
}

/// Frees a block, all of whose places are empty.
pub(crate) fn deallocate<T, A: Allocator>(
    alloc: &A,
    base: Base<T>,
    len: usize,
    cells: Cells<T>,
    claim: Claim<T, A>,
)
    requires cells { (cells.at ≡ base.ptr) × (cells.slots ≡ replicate len None) }
    requires claim { (claim.at ≡ base.ptr) × (claim.len ≡ len) × (claim.alloc ≡ alloc.now) }
{
    let Cells { own: _ } = cells;
    let Claim { own: _ } = claim;
    unsafe {
        alloc.deallocate(base.ptr as *mut u8, len * size_of::<T>(), align_of::<T>());
    }
}

impl<T> Cells<T> {
    ghost use Rattle.line_arena.specs.CellLends.{lends_slot};

    /// Moves a value into an empty place.
    pub(crate) fn write(&mut self, base: Base<T>, index: usize, item: T)
        requires base { base.ptr ≡ self.old.at }
        requires empty { (index < length self.old.slots) ×
            (get_or self.old.slots index None ≡ None) }
        ensures { self.new ≡ record self.old {
          slots =
              slice_set self.old.slots index (Some item);
        } }
    {
        unsafe { base.ptr.add(index).write(item) }
    }

    /// Moves the value of a place out. The place is empty then.
    pub(crate) fn read(&mut self, base: Base<T>, index: usize) -> T
        requires base { base.ptr ≡ self.old.at }
        requires filled { IsFilled self.old.slots index }
        ensures value { get_or self.old.slots index None ≡ Some result }
        ensures after { self.new ≡ record self.old { slots = slice_set self.old.slots index None } }
    {
        unsafe { base.ptr.add(index).read() }
    }

    /// The value of a place.
    pub(crate) fn get(&self, base: Base<T>, index: usize) -> &T
        requires base { base.ptr ≡ self.now.at }
        requires filled { IsFilled self.now.slots index }
        ensures { get_or self.now.slots index None ≡ Some result.now }
    {
        unsafe { &*base.ptr.add(index) }
    }

    /// The value of a place, to write to.
    pub(crate) fn get_mut(&mut self, base: Base<T>, index: usize) -> &mut T
        requires base { base.ptr ≡ self.old.at }
        requires filled { IsFilled self.old.slots index }
        ensures* writes_back { sem 𝓛 (lends_slot T.row self.entry index result) }
        ensures value { get_or self.old.slots index None ≡ Some result.now }
    {
        unsafe { &mut *base.ptr.add(index) }
    }
}
