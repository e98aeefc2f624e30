//! What the uses of docs/USES.md give, where their contracts don't say it. The values were worked out by hand.
use crate::compare::renewals;
use crate::drive::first_store;
use crate::ends::ends_and_runs;
use crate::program::pass_message;
use interleaving_core::{Answer, LineNo, OpenError, System};
use litmus_reader::{Test, read};
use physiological_order::{Op, Record, WordAddr};
use programs::Step;
use report::MachineOptions;
use sequential_ends::{Ends, EndsError};
use std::alloc::{AllocError, Global};
use worker_driver::config_of;

const STORE_BUFFERING: &[u8] = b"RISCV SB
{ 0:x5=1; 0:x6=x; 0:x8=y; 1:x5=1; 1:x6=y; 1:x8=x; }
 P0          | P1          ;
 sw x5,0(x6) | sw x5,0(x6) ;
 lw x7,0(x8) | lw x7,0(x8) ;
exists (0:x7=1 /\\ 1:x7=0)
";

// A core loads a word, advances 15 times, and loads it again.
fn steps(alloc: Global) -> Result<Vec<Step>, AllocError> {
    // The check finds what a step holds only where the function names its type.
    let _inside: Option<Op> = None;
    let mut steps = Vec::from_elem(alloc, Step::Advance, 17)?;
    steps[0] = Step::Op(Op::Load(WordAddr::at(0)));
    steps[16] = Step::Op(Op::Load(WordAddr::at(0)));
    Ok(steps)
}

// The first load leases the line to time 10 or 20. At time 15 the one lease is over, and the other isn't.
fn a_longer_lease_saves_a_renewal(alloc: Global) -> Result<bool, AllocError> {
    let steps = steps(alloc)?;
    let short = renewals(alloc, &steps, 10);
    Ok(short == Ok(Some(1)) && renewals(alloc, &steps, 20) == Ok(Some(0)))
}

// The store's record: the line comes at time 0, and a store goes past its lease of none.
fn stored() -> Record {
    Record {
        core: 0,
        place: 0,
        op: Op::Store(WordAddr::at(0), 1),
        received: None,
        ts: 1,
        number: 0,
    }
}

// Whether these are the answers that the comments at the events have.
fn are_answered(answers: &[Answer]) -> bool {
    answers
        == [
            Answer::Issued,
            Answer::Requested,
            Answer::Started,
            Answer::Delivered,
            Answer::Delivered,
            Answer::Delivered,
            Answer::Delivered,
            Answer::Completed(stored()),
        ]
        .as_slice()
}

// Whether the machine has the record, and core 0 alone owns the line, with the word's new value.
fn is_stored(system: &System) -> bool {
    let word = WordAddr::at(0);
    system.records() == [stored()].as_slice()
        && system.coherent(word) == 1
        && system.owners(LineNo(0)) == 1
        && system.messages() == 0
}

fn is_as_told(alloc: Global) -> Result<bool, OpenError> {
    let (system, answers) = first_store(alloc)?;
    Ok(are_answered(&answers) && is_stored(&system))
}

// Whether the end of this number has these values, and no order, and whether the condition's expression holds there.
fn is_end(test: &Test, ends: &Ends, number: usize, values: &[u64], holds: bool) -> bool {
    match ends.get(number) {
        Some((found, order)) => {
            found == values && order.is_empty() && test.values_hold(found) == holds
        }
        None => false,
    }
}

// One thread's load comes behind the other's store: the ends but that with both loads 0, in rising order. In one
// of them the first thread's load is 1 and the second's 0.
fn are_ends_of_store_buffering(alloc: Global) -> Result<bool, EndsError> {
    let Ok(test) = read(alloc, STORE_BUFFERING) else {
        return Ok(false);
    };
    let Some(config) = config_of(&MachineOptions::DEFAULT, test.threads() as u32) else {
        return Ok(false);
    };
    let (ends, runs) = ends_and_runs(alloc, &test, config, 20)?;
    Ok(
        ends.len() == 3
            && is_end(&test, &ends, 0, &[0, 1], false)
            && is_end(&test, &ends, 1, &[1, 0], true)
            && is_end(&test, &ends, 2, &[1, 1], false)
            && runs.len() == 20,
    )
}

/// Whether all of them give these values.
pub(crate) fn are_told(alloc: Global) -> bool {
    a_longer_lease_saves_a_renewal(alloc) == Ok(true)
        && is_as_told(alloc) == Ok(true)
        && pass_message(alloc) == Ok(Some(42))
        && are_ends_of_store_buffering(alloc) == Ok(true)
}
