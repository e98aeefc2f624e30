//! What a record should have received, and who wrote that.
ghost use Rattle.std.specs.Prelude.{◌≡◌, ◌<◌, ◌↔◌, ℕ, List, ◌++◌, ◌∷◌, [], length, Any, HoldsAt, IsTrue};
ghost use Rattle.std.specs.Prelude.{IfSome, MatchOption, Some, None, ⊤};
ghost use Rattle.physiological_order.specs.declared.operation.Op.{Op};
ghost use Rattle.physiological_order.specs.declared.operation.Record.{Record};
ghost use Rattle.physiological_order.specs.declared.verdict.Verdict.TheVariants.{WrongValue};
ghost use Rattle.physiological_order.specs.Faults.{IsVerdict};
ghost use Rattle.physiological_order.specs.Order.{Before, address, flat};
ghost use Rattle.tardis_c.specs.Histories.{IsFound, without_expected, wrong_value};
ghost use Rattle.tardis_c.specs.Writes.{IsEarlier, IsLastWrite, writes, written};

use crate::arrays::{Told, verdict_told};
use physiological_order::{Memory, Op, Record, Verdict};

/// What a check of a history answers in addition to its number, as `tardis.h` has it.
#[repr(C)]
#[derive(Clone, Copy)]
pub struct Found {
    /// As `Told` has it.
    pub kind: u64,
    /// As `Told` has it.
    pub number: u64,
    /// With a wrong value, what the record should have received.
    pub expected: u64,
    /// With a wrong value, where that comes from: 1 the opening memory, 2 a record.
    pub source: u64,
    /// The number of that record.
    pub writer: u64,
}

/// A kind and a number, where nothing was expected.
pub(crate) fn without_expected(told: Told) -> Found
    ensures { result ≡ without_expected told }
{
    Found {
        kind: told.kind,
        number: told.number,
        expected: 0,
        source: 0,
        writer: 0,
    }
}

/// What is found of records that have this verdict.
pub(crate) fn found_of_verdict(memory: &Memory, records: &[Record], verdict: Verdict) -> Found
    requires { (issued : ℕ → List Op) × IsVerdict (flat memory.now) issued records.now verdict }
    ensures { IsFound (flat memory.now) records.now verdict result }
{
    match verdict {
        Verdict::WrongValue(number) => wrong_value(memory, records, number),
        _ => without_expected(verdict_told(verdict)),
    }
}

// What is found of records of which this one has a wrong value.
fn wrong_value(memory: &Memory, records: &[Record], number: u64) -> Found
    requires { (issued : ℕ → List Op) × IsVerdict (flat memory.now) issued records.now (WrongValue number) }
    ensures { IsFound (flat memory.now) records.now (WrongValue number) result }
{
    let faulty = &records[index_of_record(records, number)];
    let last = last_earlier_write(records, faulty);
    wrong_value_by(memory, faulty, last, number)
}

// The index of a record that has this number.
fn index_of_record(records: &[Record], number: u64) -> usize
    requires { Any (λ r. r.number ≡ number) records.now }
    ensures below { result < length records.now }
    ensures named { HoldsAt (λ r. r.number ≡ number) records.now result }
{
    for index in 0..records.len() {
        if records[index].number == number {
            return index;
        }
    }
    unreachable!()
}

// The last of the records that write the word of a record and come before it, by time and number.
fn last_earlier_write(records: &[Record], faulty: &Record) -> Option<Record>
    ensures { IsLastWrite faulty.now records.now result }
{
    let mut last = None;
    for record in records {
        last = later_write(last, record, faulty);
    }
    last
}

// The last write, of one so far and one record more.
fn later_write(last: Option<Record>, next: &Record, faulty: &Record) -> Option<Record>
    ensures { (records : List Record) → IsLastWrite faulty.now records last →
        IsLastWrite faulty.now (records ++ next.now ∷ []) result }
{
    if !is_earlier_write(next, faulty) {
        return last;
    }
    if !is_after_last(next, &last) {
        return last;
    }
    Some(*next)
}

// Whether a record writes the word of another one, and comes before it.
fn is_earlier_write(candidate: &Record, faulty: &Record) -> bool
    ensures { IsTrue result ↔ IsEarlier faulty.now candidate.now }
{
    writes(faulty.op.word(), candidate.op) && record_comes_before(candidate, faulty)
}

// Whether an operation writes the word of this number.
fn writes(word: u64, op: Op) -> bool
    ensures { result ≡ writes word op }
{
    match op {
        Op::Load(_) => false,
        Op::Store(addr, _) | Op::Swap(addr, _) => word == addr.word(),
    }
}

// Whether a record comes before another, by time and then by number.
fn record_comes_before(first: &Record, second: &Record) -> bool
    ensures { IsTrue result ↔ Before first.now second.now }
{
    first.ts < second.ts || (first.ts == second.ts && first.number < second.number)
}

// Whether a record comes after the one that there is, if any.
fn is_after_last(next: &Record, last: &Option<Record>) -> bool
    ensures { IsTrue result ↔ MatchOption last.now ⊤ (λ write. Before write next.now) }
{
    match last {
        None => true,
        Some(write) => record_comes_before(write, next),
    }
}

// What is found, if the last write of the record's word before it is this one.
fn wrong_value_by(memory: &Memory, faulty: &Record, last: Option<Record>, number: u64) -> Found
    ensures none { last ≡ None →
        result ≡ wrong_value number (flat memory.now (address faulty.now.op)) None }
    ensures some { IfSome last (λ write.
        result ≡ wrong_value number (written write.op) (Some write.number)) }
{
    match last {
        None => Found {
            kind: 3,
            number,
            expected: memory.get(faulty.op.addr()),
            source: 1,
            writer: 0,
        },
        Some(write) => Found {
            kind: 3,
            number,
            expected: written(write.op),
            source: 2,
            writer: write.number,
        },
    }
}

// What an operation writes, and 0 for a load.
fn written(op: Op) -> u64
    ensures { result ≡ written op }
{
    match op {
        Op::Load(_) => 0,
        Op::Store(_, value) | Op::Swap(_, value) => value,
    }
}
