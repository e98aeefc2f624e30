//! Where a machine puts what its cores were issued, and the records of what they completed.
ghost use Rattle.std.specs.Prelude.{◌≡◌, ◌<◌, ◌≤◌, ◌+◌, ◌-◌, ◌++◌, ◌∷◌, [], ℕ, List, IfOk, OnErr, OnOk, length};
ghost use Rattle.std.specs.Prelude.{option_copied, replicate, slice_get, vec_capacity};
ghost use Rattle.physiological_order.specs.declared.operation.Op.{Op};
ghost use Rattle.physiological_order.specs.declared.operation.Record.{Record};
ghost use Rattle.interleaving_core.specs.HistoryNews.{with_issued};

use crate::op_list::OpList;
use physiological_order::{Op, Record};
use std::alloc::{AllocError, Global};

/// A machine's history. Contracts see all of it, whether or not memory holds it.
pub trait History: Drop {
    /// The operations that each core was issued, in order.
    ghost issued: { Self → List (List Op) };

    /// The records of the completed operations, by number.
    ghost records: { Self → List Record };

    /// How many records there is room for, with those that it has.
    ghost room: { Self → ℕ };

    /// A history of this many cores. They were issued nothing, and nothing has completed.
    fn open(alloc: Global, cores: u32) -> Result<Self, AllocError>
        ensures issued { IfOk result (λ history. issued history ≡ replicate cores []) }
        ensures records { IfOk result (λ history. records history ≡ []) };

    /// The history as it opened, of as many cores as it has. Its memory stays.
    fn clear(&mut self, cores: u32)
        requires { length (issued self.old) ≡ cores }
        ensures issued { issued self.new ≡ replicate cores [] }
        ensures records { records self.new ≡ [] };

    /// A core was issued an operation. Memory is taken for it here, and room for this many more records; where that is
    /// refused nothing was issued.
    fn issue(&mut self, core: usize, op: &Op, more: usize) -> Result<(), AllocError>
        requires { core < length (issued self.old) }
        ensures issued { OnOk result (issued self.new ≡
            with_issued (issued self.old) core op.now) }
        ensures reserved { OnOk result (length (records self.old) + more ≤ room self.new) }
        ensures refused { OnErr result (issued self.new ≡ issued self.old) }
        ensures records { records self.new ≡ records self.old }
        ensures room { room self.old ≤ room self.new };

    /// An operation has completed. There is room for its record.
    fn complete(&mut self, done: &Record)
        requires { length (records self.old) < room self.old }
        ensures issued { issued self.new ≡ issued self.old }
        ensures records { records self.new ≡ records self.old ++ done.now ∷ [] }
        ensures room { room self.old ≤ room self.new };

    /// How many records there are.
    fn count(&self) -> usize
        ensures { result ≡ length (records self.now) };

    /// The last record; `None` before the first one.
    fn last(&self) -> Option<&Record>
        ensures { option_copied result ≡ slice_get (records self.now)
            (length (records self.now) - 1) };
}

/// The whole history is kept in memory, some 140 bytes an operation.
#[derive(Drop)]
pub struct KeptHistory {
    pub(crate) issued: Vec<OpList>,
    pub(crate) records: Vec<Record>,
}

impl History for KeptHistory {
    ghost issued = { λ a. a.issued.items };

    ghost records = { λ a. a.records.items };

    ghost room = { λ a. vec_capacity a.records };

    fn open(alloc: Global, cores: u32) -> Result<KeptHistory, AllocError> {
        let issued = empty_op_lists(alloc, cores)?;
        Ok(KeptHistory {
            issued,
            records: Vec::new(alloc),
        })
    }

    fn clear(&mut self, _cores: u32) {
        clear_op_lists(&mut self.issued);
        self.records.clear();
    }

    #[inline(always)]
    fn issue(&mut self, core: usize, op: &Op, more: usize) -> Result<(), AllocError> {
        reserve_records(&mut self.records, more)?;
        self.issued[core].push(op)
    }

    #[inline(always)]
    fn complete(&mut self, done: &Record) {
        self.records.push_reserved(Record {
            core: done.core,
            place: done.place,
            op: done.op,
            received: done.received,
            ts: done.ts,
            number: done.number,
        });
    }

    #[inline(always)]
    fn count(&self) -> usize {
        self.records.len()
    }

    #[inline(always)]
    fn last(&self) -> Option<&Record> {
        self.records.last()
    }
}

// Reserves capacity for this many more records.
fn reserve_records(records: &mut Vec<Record>, more: usize) -> Result<(), AllocError>
    ensures items { records.new.items ≡ records.old.items }
    ensures ok { OnOk result (length records.new.items + more ≤ vec_capacity records.new) }
    ensures capacity { vec_capacity records.old ≤ vec_capacity records.new }
{
    records.reserve(more)
}

// No operations, of so many cores.
fn empty_op_lists(alloc: Global, cores: u32) -> Result<Vec<OpList>, AllocError>
    ensures { IfOk result (λ issued. issued.items ≡ replicate cores []) }
{
    let mut issued = Vec::new(alloc);
    for _ in 0..cores {
        issued.push(OpList::new(alloc))?;
    }
    Ok(issued)
}

// No operations of any core.
fn clear_op_lists(issued: &mut Vec<OpList>)
    ensures { issued.new.items ≡ replicate (length issued.old.items) [] }
{
    for at in 0..issued.len() {
        issued[at].clear();
    }
}
