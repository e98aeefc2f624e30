//! A count that only contracts see: it takes no memory, and has no greatest value.

ghost use Rattle.std.specs.Prelude.{◌≡◌, ℕ, suc};
ghost use Rattle.std.specs.Borrow.{ftrue};

use std::marker::{Model, PhantomData};

/// A count of no bytes.
#[derive(Drop)]
pub struct Tally {
    marker: PhantomData<u8>,
    pub ghost count: { ℕ },
}

impl Model for Tally {
    ghost also_owns = { λ _. ftrue };
}

impl Tally {
    /// Nothing is counted yet.
    pub(crate) fn new() -> Tally
        ensures { result.count ≡ 0 }
    {
        Tally {
            marker: PhantomData,
        }
    }

    /// Counts one more.
    pub(crate) fn rise(&mut self)
        ensures { self.new.count ≡ suc self.old.count }
    {}
}
