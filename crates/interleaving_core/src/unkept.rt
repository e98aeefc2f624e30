//! A history that only contracts see: it takes no memory.
ghost use Rattle.std.specs.Prelude.{◌≡◌, [], List};
ghost use Rattle.std.specs.Borrow.{ftrue};
ghost use Rattle.physiological_order.specs.declared.operation.Op.{Op};
ghost use Rattle.physiological_order.specs.declared.operation.Record.{Record};
ghost use Rattle.interleaving_core.specs.HistoryNews.{after_news};

use physiological_order::{Op, Record};
use std::marker::{Model, PhantomData};

/// What happens to a history.
#[derive(Drop)]
pub enum News {
    /// A machine of this many cores opens.
    Opened(u32),
    /// A core was issued an operation.
    Issued(usize, Op),
    /// An operation has completed.
    Completed(Record),
}

/// What the cores were issued, and the records, in no bytes. Only `new` makes one, and only `note` changes it: their
/// proofs are by hand.
#[derive(Drop)]
pub struct Unkept {
    marker: PhantomData<u8>,
    pub ghost lists: { List (List Op) × List Record },
}

impl Model for Unkept {
    ghost also_owns = { λ _. ftrue };
}

impl Unkept {
    /// A history of no core.
    pub(crate) fn new() -> Unkept
        ensures { result.lists ≡ ([], []) }
    {
        Unkept {
            marker: PhantomData,
        }
    }

    /// The history goes on by this.
    pub(crate) fn note(&mut self, news: &News)
        ensures { self.new.lists ≡ after_news self.old.lists news.now }
    {}
}
