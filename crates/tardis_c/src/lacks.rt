//! Which operation of a history has no record.
ghost use Rattle.std.specs.Prelude.{◌≡◌, ◌≤◌, ◌==◌, ℕ, IfOk, MatchOption, OnOk, count_by, get_or, length, map};
ghost use Rattle.tardis_c.specs.Lacks.{HaveAll, IsFirstOther, IsLack, TellsLack};
ghost use Rattle.tardis_c.specs.Plain.{issued_of, record_of};

use crate::arrays::first_fault;
use crate::plain::{PlainOperation, PlainRecord};
use std::alloc::{AllocError, Global};

/// Where records are missing, as `tardis.h` has it.
#[repr(C)]
#[derive(Clone, Copy)]
pub struct Lack {
    /// The first core that hasn't as many records as operations.
    pub core: u64,
    /// How many records it has. If they are legal, its operation at this place is the first one without a record.
    pub place: u64,
}

/// An item of a core.
trait OfCore {
    ghost use Rattle.std.specs.Prelude.{◌≡◌, ℕ};

    /// The number of the core.
    ghost core: { Self → ℕ };

    /// The number of the core.
    fn core(&self) -> u32
        ensures { result ≡ core self.now };
}

impl OfCore for PlainOperation {
    ghost use Rattle.tardis_c.specs.Lacks.{operation_core};

    ghost core = { operation_core };

    fn core(&self) -> u32 {
        self.core
    }
}

impl OfCore for PlainRecord {
    ghost use Rattle.tardis_c.specs.Lacks.{record_core};

    ghost core = { record_core };

    fn core(&self) -> u32 {
        self.operation.core
    }
}

/// Whether each core has as many records as operations: 0 if so, and 7 if not. Then `lack` has the first core that
/// hasn't, and how many records it has. 10 if an operation has a fault, else 11 if a record has one, and 3 if an
/// allocation failed; `lack` is unchanged then, as on 0. It doesn't look at whether the records are legal.
#[unsafe(no_mangle)]
pub extern "C" fn tardis_c_first_lack(
    alloc: Global,
    operations: &[PlainOperation],
    records: &[PlainRecord],
    lack: &mut Lack,
) -> u32
    ensures { TellsLack operations.now records.now lack.old lack.new result }
{
    if let Some(_fault) = first_fault(operations) {
        return 10;
    }
    if let Some(_fault) = first_fault(records) {
        return 11;
    }
    match find_first_lack(alloc, operations, records) {
        Ok(None) => 0,
        Ok(Some(found)) => {
            *lack = found;
            7
        }
        Err(AllocError) => 3,
    }
}

// What is missing, if anything is.
fn find_first_lack(
    alloc: Global,
    operations: &[PlainOperation],
    records: &[PlainRecord],
) -> Result<Option<Lack>, AllocError>
    ensures { IfOk result (λ found. MatchOption found
        (HaveAll (issued_of operations.now) (map record_of records.now))
        (IsLack (issued_of operations.now) (map record_of records.now))) }
{
    let issued = count_items_by_core(alloc, operations)?;
    let done = count_items_by_core(alloc, records)?;
    Ok(first_differing_core(&issued, &done))
}

// How many of the items are of each core, up to the greatest of these.
fn count_items_by_core<T: OfCore>(alloc: Global, items: &[T]) -> Result<Vec<u64>, AllocError>
    ensures { IfOk result (λ counts. (core : ℕ) →
        get_or counts.items core 0 ≡ count_by (λ item. T.core item == core) items.now) }
{
    let mut counts: Vec<u64> = Vec::new(alloc);
    for item in items {
        let core = item.core() as usize;
        extend_counts(&mut counts, core + 1)?;
        counts[core] += 1;
    }
    Ok(counts)
}

// Counts of 0 behind the others, up to a number of counts.
fn extend_counts(counts: &mut Vec<u64>, number: usize) -> Result<(), AllocError>
    ensures long { OnOk result (number ≤ length counts.new.items) }
    ensures same { OnOk result ((core : ℕ) →
        get_or counts.new.items core 0 ≡ get_or counts.old.items core 0) }
{
    while counts.len() < number {
        counts.push(0)?;
    }
    Ok(())
}

// The first core of which the two counts differ.
fn first_differing_core(issued: &[u64], done: &[u64]) -> Option<Lack>
    ensures { MatchOption result
        ((core : ℕ) → get_or issued.now core 0 ≡ get_or done.now core 0)
        (IsFirstOther issued.now done.now) }
{
    for core in 0..greater_length(issued.len(), done.len()) {
        let place = count_for_core(done, core);
        if count_for_core(issued, core) != place {
            return Some(Lack {
                core: core as u64,
                place,
            });
        }
    }
    None
}

// The greater of two lengths.
fn greater_length(first: usize, second: usize) -> usize
    ensures { (first ≤ result) × (second ≤ result) }
{
    if first < second { second } else { first }
}

// The count of a core.
fn count_for_core(counts: &[u64], core: usize) -> u64
    ensures { result ≡ get_or counts.now core 0 }
{
    if core < counts.len() { counts[core] } else { 0 }
}
