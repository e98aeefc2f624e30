//! A check of a history, as arrays, over an opening memory.
ghost use Rattle.std.specs.Prelude.{◌≡◌, IfOk, OnErr, map};
ghost use Rattle.physiological_order.specs.Order.{flat};
ghost use Rattle.tardis_c.specs.Arrays.{HaveNone, IsVerdictOn};
ghost use Rattle.tardis_c.specs.Histories.{IsFound, IsHistory};
ghost use Rattle.tardis_c.specs.Plain.{record_fault, record_of, words_of};

use crate::arrays::{first_fault, records_of_plain, verdict_number, verdict_over_opening};
use crate::expected::{Found, found_of_verdict, without_expected};
use crate::plain::{PlainOperation, PlainRecord, PlainWord, store_of};
use physiological_order::{Memory, Verdict};
use std::alloc::{AllocError, Global};

/// Checks records against the operations that cores were issued, each core's in its order, over a memory that opens
/// with these words and 0 elsewhere. 0 if they are legal, 7 if not; 12 if a word has a fault, else 10 if an operation
/// has one, else 11 if a record has one, and 3 if an allocation failed. `found` then has the kind and the number, and
/// with a wrong value the one that was expected, and who wrote it; all 0 for legal records. After a failed allocation
/// it is unchanged.
#[unsafe(no_mangle)]
pub extern "C" fn tardis_c_check_history(
    alloc: Global,
    opening: &[PlainWord],
    operations: &[PlainOperation],
    records: &[PlainRecord],
    found: &mut Found,
) -> u32
    ensures { IsHistory opening.now operations.now records.now found.old found.new result }
{
    if let Some(fault) = first_fault(opening) {
        *found = without_expected(fault);
        return 12;
    }
    if let Some(fault) = first_fault(operations) {
        *found = without_expected(fault);
        return 10;
    }
    if let Some(fault) = first_fault(records) {
        *found = without_expected(fault);
        return 11;
    }
    match verdict_on_history(alloc, opening, operations, records, found) {
        Ok(verdict) => verdict_number(verdict),
        Err(AllocError) => 3,
    }
}

// The verdict on records that have no fault, and what is found of them.
fn verdict_on_history(
    alloc: Global,
    opening: &[PlainWord],
    operations: &[PlainOperation],
    records: &[PlainRecord],
    found: &mut Found,
) -> Result<Verdict, AllocError>
    requires { HaveNone record_fault records.now }
    ensures verdict { IfOk result
        (IsVerdictOn (flat (words_of opening.now)) operations.now records.now) }
    ensures found { IfOk result (λ verdict.
        IsFound (flat (words_of opening.now)) (map record_of records.now) verdict found.new) }
    ensures refused { OnErr result (found.new ≡ found.old) }
{
    let memory = memory_of_opening_words(alloc, opening)?;
    let records = records_of_plain(alloc, records)?;
    let verdict = verdict_over_opening(alloc, &memory, operations, &records)?;
    *found = found_of_verdict(&memory, &records, verdict);
    Ok(verdict)
}

/// The memory that opens with these words.
pub(crate) fn memory_of_opening_words(
    alloc: Global,
    opening: &[PlainWord],
) -> Result<Memory, AllocError>
    ensures { IfOk result (λ memory. memory ≡ words_of opening.now) }
{
    let mut memory = Memory::new(alloc);
    for word in opening {
        memory.perform(store_of(word))?;
    }
    Ok(memory)
}
