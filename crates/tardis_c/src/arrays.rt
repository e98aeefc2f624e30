//! A check of records against operations, both as arrays.
ghost use Rattle.std.specs.Prelude.{◌≡◌, ◌≤◌, ℕ, None, IfOk, IfSome, OnOk, length, map};
ghost use Rattle.std.specs.FinMap.{empty};
ghost use Rattle.physiological_order.specs.Faults.{IsVerdict, issued_by};
ghost use Rattle.physiological_order.specs.Order.{flat};
ghost use Rattle.tardis_c.specs.Arrays.{HasFirst, HaveNone, IsChecked, IsVerdictOn, verdict_number, verdict_told};
ghost use Rattle.tardis_c.specs.Plain.{issued_of, record_fault, record_of};

use crate::plain::{Plain, PlainOperation, PlainRecord, op_of, record_of};
use physiological_order::{Memory, Op, Record, Verdict, check};
use std::alloc::{AllocError, Global};

/// What a check of arrays answers in addition to its number, as `tardis.h` has it.
#[repr(C)]
#[derive(Clone, Copy)]
pub struct Told {
    /// 1 a missing number, 2 out of program order, 3 a wrong value; or what is wrong with an item of an array.
    pub kind: u64,
    /// The record's number, or the item's index.
    pub number: u64,
}

/// Checks records against the operations that cores were issued, each core's in its order, over a memory of zeros. 0
/// if they are legal, 7 if not; 10 if an operation has a fault, else 11 if a record has one, and 3 if an allocation
/// failed. `told` then has the kind and the number, both 0 for legal records; after a failed allocation it is
/// unchanged.
#[unsafe(no_mangle)]
pub extern "C" fn tardis_c_check_arrays(
    alloc: Global,
    operations: &[PlainOperation],
    records: &[PlainRecord],
    told: &mut Told,
) -> u32
    ensures { IsChecked operations.now records.now told.old told.new result }
{
    if let Some(fault) = first_fault(operations) {
        *told = fault;
        return 10;
    }
    if let Some(fault) = first_fault(records) {
        *told = fault;
        return 11;
    }
    match zeros_verdict(alloc, operations, records) {
        Ok(verdict) => {
            *told = verdict_told(verdict);
            verdict_number(verdict)
        }
        Err(AllocError) => 3,
    }
}

/// The first item that has a fault: its kind and index.
pub(crate) fn first_fault<T: Plain>(items: &[T]) -> Option<Told>
    ensures some { IfSome result (λ told. HasFirst T.fault items.now told.kind told.number) }
    ensures none { result ≡ None → HaveNone T.fault items.now }
{
    for index in 0..items.len() {
        let kind = items[index].fault();
        if kind != 0 {
            return Some(Told {
                kind,
                number: index as u64,
            });
        }
    }
    None
}

// The verdict over a memory of zeros.
fn zeros_verdict(
    alloc: Global,
    operations: &[PlainOperation],
    records: &[PlainRecord],
) -> Result<Verdict, AllocError>
    requires { HaveNone record_fault records.now }
    ensures { IfOk result (IsVerdictOn (flat empty) operations.now records.now) }
{
    let records = records_of_plain(alloc, records)?;
    verdict_over_opening(alloc, &Memory::new(alloc), operations, &records)
}

/// The verdict on records, for what cores were issued over a memory that opens as given.
pub(crate) fn verdict_over_opening(
    alloc: Global,
    opening: &Memory,
    operations: &[PlainOperation],
    records: &[Record],
) -> Result<Verdict, AllocError>
    ensures { IfOk result (IsVerdict (flat opening.now) (issued_of operations.now) records.now) }
{
    let issued = issued_lists(alloc, operations)?;
    check(alloc, opening, &issued, records)
}

// What each core was issued, in order, up to the greatest core.
fn issued_lists(alloc: Global, operations: &[PlainOperation]) -> Result<Vec<Vec<Op>>, AllocError>
    ensures { IfOk result (λ lists. (core : ℕ) →
        issued_by lists.items core ≡ issued_of operations.now core) }
{
    let mut lists: Vec<Vec<Op>> = Vec::new(alloc);
    for operation in operations {
        let core = operation.core as usize;
        extend_lists(alloc, &mut lists, core + 1)?;
        lists[core].push(op_of(operation))?;
    }
    Ok(lists)
}

// Lists without operations, up to a number of lists.
fn extend_lists(alloc: Global, lists: &mut Vec<Vec<Op>>, number: usize) -> Result<(), AllocError>
    ensures long { OnOk result (number ≤ length lists.new.items) }
    ensures same { OnOk result ((core : ℕ) →
        issued_by lists.new.items core ≡ issued_by lists.old.items core) }
{
    while lists.len() < number {
        lists.push(Vec::new(alloc))?;
    }
    Ok(())
}

/// The records, in their order.
pub(crate) fn records_of_plain(
    alloc: Global,
    plain: &[PlainRecord],
) -> Result<Vec<Record>, AllocError>
    requires { HaveNone record_fault plain.now }
    ensures { IfOk result (λ records. records.items ≡ map record_of plain.now) }
{
    // The check finds what a record holds only where the function names its type.
    let _inside: Option<Op> = None;
    let mut records = Vec::with_capacity(alloc, plain.len())?;
    for record in plain {
        records.push(record_of(record))?;
    }
    Ok(records)
}

/// The kind of a verdict, and the number that it is wrong with.
pub(crate) fn verdict_told(verdict: Verdict) -> Told
    ensures { result ≡ verdict_told verdict }
{
    match verdict {
        Verdict::Legal => Told { kind: 0, number: 0 },
        Verdict::BadNumber(number) => Told { kind: 1, number },
        Verdict::OutOfProgramOrder(number) => Told { kind: 2, number },
        Verdict::WrongValue(number) => Told { kind: 3, number },
    }
}

/// The number of a verdict.
pub(crate) fn verdict_number(verdict: Verdict) -> u32
    ensures { result ≡ verdict_number verdict }
{
    match verdict {
        Verdict::Legal => 0,
        _ => 7,
    }
}
