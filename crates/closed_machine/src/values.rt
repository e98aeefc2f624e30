//! The value that records leave in a word of a memory.
ghost use Rattle.std.specs.Prelude.{◌≡◌, ◌⊎◌, ◌++◌, ◌∷◌, [], List, map, None, Some, IfOk, OnOk};
ghost use Rattle.physiological_order.specs.declared.operation.Record.{Record};
ghost use Rattle.physiological_order.specs.Order.{Arrangement, flat, replay_end};
ghost use Rattle.closed_machine.specs.LastWrites.{AreLast, IsLast, IsSooner, value_in, written};
ghost use Rattle.closed_machine.specs.ValuesLeft.{ValuesLeft};

use number_map::NumberMap;
use physiological_order::{Memory, Op, Record, WordAddr};
use std::alloc::{AllocError, Global};

/// What a record wrote to a word, with its time and number.
#[derive(Clone, Copy, Debug, PartialEq, Eq)]
pub(crate) struct Write {
    ts: u64,
    number: u64,
    value: u64,
}

/// The value of a word once the operations of these records were performed on a memory, one after the other by their
/// times, and at equal times by their numbers. The records may stand in any order. The call looks at each once.
pub(crate) fn value_after_records(opening: &Memory, records: &[Record], addr: WordAddr) -> u64
    ensures { (arranged : List Record) → Arrangement records.now arranged →
        result ≡ replay_end (flat opening.now) (map (λ r. r.op) arranged) addr }
{
    match last_write(records, addr) {
        None => opening.get(addr),
        Some(write) => write.value,
    }
}

/// The values of these words, in their order, each as `value_after_records` answers it. The call looks at each record
/// once, however many words there are. AllocError if memory for the list, or for the last write of each word, can't be
/// allocated.
pub(crate) fn values_after_records(
    alloc: Global,
    opening: &Memory,
    records: &[Record],
    words: &[WordAddr],
) -> Result<Vec<u64>, AllocError>
    ensures { IfOk result (λ values.
        ValuesLeft (flat opening.now) records.now words.now values.items) }
{
    let lasts = last_writes(alloc, records)?;
    values_after_writes(alloc, opening, &lasts, words)
}

// The values of words, by the last writes of all words.
fn values_after_writes(
    alloc: Global,
    opening: &Memory,
    lasts: &NumberMap<Write>,
    words: &[WordAddr],
) -> Result<Vec<u64>, AllocError>
    ensures { IfOk result (λ values.
        values.items ≡ map (value_in (flat opening.now) lasts.now) words.now) }
{
    words
        .iter()
        .map(|word| value_after_writes(opening, lasts, *word))
        .collect(alloc)
}

// The value of a word, by the last writes of all words.
fn value_after_writes(opening: &Memory, lasts: &NumberMap<Write>, addr: WordAddr) -> u64
    ensures { result ≡ value_in (flat opening.now) lasts.now addr }
{
    match lasts.get(addr.word()) {
        None => opening.get(addr),
        Some(write) => write.value,
    }
}

// The write of each word after which no other comes.
fn last_writes(alloc: Global, records: &[Record]) -> Result<NumberMap<Write>, AllocError>
    ensures { IfOk result (AreLast records.now) }
{
    let mut lasts = NumberMap::new(alloc);
    for record in records {
        update_last_writes(&mut lasts, record)?;
    }
    Ok(lasts)
}

// The last writes, with one record more.
fn update_last_writes(lasts: &mut NumberMap<Write>, next: &Record) -> Result<(), AllocError>
    ensures { OnOk result ((before : List Record) → AreLast before lasts.old →
        AreLast (before ++ next.now ∷ []) lasts.new) }
{
    let addr = next.op.addr();
    match written_value(&next.op, addr) {
        None => Ok(()),
        Some(value) => {
            let at = addr.word();
            let write = Write {
                ts: next.ts,
                number: next.number,
                value,
            };
            let last = last_write_with(lasts.get(at), write);
            lasts.insert(at, last)?;
            Ok(())
        }
    }
}

// The write of a word after which no other comes.
fn last_write(records: &[Record], addr: WordAddr) -> Option<Write>
    ensures { IsLast addr records.now result }
{
    let mut last = None;
    for record in records {
        last = last_write_with_record(last, record, addr);
    }
    last
}

// The last write, with one record more.
fn last_write_with_record(last: Option<Write>, next: &Record, addr: WordAddr) -> Option<Write>
    ensures { (before : List Record) → IsLast addr before last →
        IsLast addr (before ++ next.now ∷ []) result }
{
    match written_value(&next.op, addr) {
        None => last,
        Some(value) => Some(last_write_with(
            last,
            Write {
                ts: next.ts,
                number: next.number,
                value,
            },
        )),
    }
}

// The later one of the last write, if there is one, and another.
fn last_write_with(last: Option<Write>, write: Write) -> Write
    ensures first { last ≡ None → result ≡ write }
    ensures after { (before : Write) → last ≡ Some before →
        IsSooner before.ts before.number result.ts result.number ×
        IsSooner write.ts write.number result.ts result.number ×
        ((result ≡ before) ⊎ (result ≡ write)) }
{
    match last {
        None => write,
        Some(before) => later_write(before, write),
    }
}

// The later one of two writes.
fn later_write(before: Write, write: Write) -> Write
    ensures after { IsSooner before.ts before.number result.ts result.number }
    ensures behind { IsSooner write.ts write.number result.ts result.number }
    ensures one { (result ≡ before) ⊎ (result ≡ write) }
{
    let is_sooner = if before.ts == write.ts {
        before.number <= write.number
    } else {
        before.ts < write.ts
    };
    if is_sooner { write } else { before }
}

// What an operation writes to a word, if it does.
fn written_value(op: &Op, addr: WordAddr) -> Option<u64>
    ensures { result ≡ written op.now addr }
{
    match op {
        Op::Load(_) => None,
        Op::Store(at, value) | Op::Swap(at, value) => {
            if addr == *at { Some(*value) } else { None }
        }
    }
}
