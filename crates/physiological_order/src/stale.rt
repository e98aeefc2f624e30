//! Loads that received a value older than the newest one completed.
ghost use Rattle.std.specs.Prelude.{◌≡◌, ◌↔◌, ◌+◌, ◌*◌, ◌≤◌, ◌&&◌, length, nat_lt, IsTrue, OnOk, IfOk};
ghost use Rattle.std.specs.List.{list_any};
ghost use Rattle.physiological_order.specs.Counting.{after_steps, looks, looks_of};
ghost use Rattle.physiological_order.specs.StaleHits.{RisesByNumber, is_stale_load, stale_count, writes};
ghost use Rattle.physiological_order.specs.LatestWrites.{later_than, raised, stale_by, latest_after};

use crate::operation::{Op, Record};
use crate::steps::Steps;
use crate::word_addr::WordAddr;
use number_map::NumberMap;
use std::alloc::{AllocError, Global};

/// Whether each record's number is below the next one's, as `stale_hits` asks.
pub fn rises_by_number(records: &[Record]) -> bool
    ensures { IsTrue result ↔ RisesByNumber records.now }
{
    records.is_sorted_by(|record, next| record.number < next.number)
}

/// The number of loads for which a store or swap of the same word has a smaller number and a greater time. The records
/// are in rising order of number.
pub fn stale_hits(alloc: Global, records: &[Record]) -> Result<u64, AllocError>
    requires { RisesByNumber records.now }
    ensures { IfOk result (λ count. count ≡ stale_count records.now) }
{
    if records.len() <= 16 {
        return Ok(stale_hits_of_few_records(records));
    }
    stale_hits_counted(alloc, &mut Steps::new(), records)
}

/// The same number, of few records: each load is compared with all of them, which costs less than a map.
fn stale_hits_of_few_records(records: &[Record]) -> u64
    ensures { result ≡ stale_count records.now }
{
    records
        .iter()
        .filter(|record| is_stale_hit(records, record))
        .count() as u64
}

/// Whether the record is a load that is a stale hit among the records.
fn is_stale_hit(records: &[Record], hit: &Record) -> bool
    ensures { result ≡ is_stale_load hit.now.op records.now hit.now }
{
    match hit.op {
        Op::Load(word) => is_load_overtaken(records, word, hit),
        Op::Store(_, _) | Op::Swap(_, _) => false,
    }
}

/// Whether some store or swap of the word has a smaller number than the load and a greater time.
fn is_load_overtaken(records: &[Record], word: WordAddr, load: &Record) -> bool
    ensures { result ≡ list_any (λ s. writes s.op word
        && (nat_lt s.number load.now.number && nat_lt load.now.ts s.ts)) records.now }
{
    records
        .iter()
        .any(|other| write_overtakes_load(other, word, load))
}

/// Whether the record is one.
fn write_overtakes_load(other: &Record, word: WordAddr, load: &Record) -> bool
    ensures { result ≡ (writes other.now.op word
        && (nat_lt other.now.number load.now.number && nat_lt load.now.ts other.now.ts)) }
{
    writes_word(other.op, word) && (other.number < load.number && load.ts < other.ts)
}

/// Whether the operation is a store or a swap of the word.
fn writes_word(op: Op, word: WordAddr) -> bool
    ensures { result ≡ writes op word }
{
    match op {
        Op::Load(_) => false,
        Op::Store(written, _) | Op::Swap(written, _) => written.word() == word.word(),
    }
}

/// What `stale_hits` answers, with a count of its looks into the map of the greatest store times: one for each load,
/// and two for each store or swap, so at most 2 * n for n records. The count never falls.
pub fn stale_hits_counted(
    alloc: Global,
    steps: &mut Steps,
    records: &[Record],
) -> Result<u64, AllocError>
    requires { RisesByNumber records.now }
    ensures count { IfOk result (λ count. count ≡ stale_count records.now) }
    ensures looks { OnOk result (steps.new ≡ after_steps steps.old (looks records.now)) }
    ensures bound { steps.new ≤ steps.old + 2 * length records.now }
    ensures grows { steps.old ≤ steps.new }
{
    let mut latest = NumberMap::new(alloc);
    let mut count = 0;
    for record in records {
        if check_stale_hit(steps, &mut latest, record)? {
            count += 1;
        }
    }
    Ok(count)
}

/// Whether the record is a load with a later write of its word before it; a write is kept as the latest of its word.
fn check_stale_hit(
    steps: &mut Steps,
    latest: &mut NumberMap<u64>,
    visited: &Record,
) -> Result<bool, AllocError>
    ensures stale { IfOk result (λ stale.
        stale ≡ stale_by latest.old visited.now.op visited.now.ts) }
    ensures kept { OnOk result
        (latest.new ≡ latest_after latest.old visited.now.op visited.now.ts) }
    ensures counted { steps.new ≡ after_steps steps.old (looks_of visited.now.op) }
{
    let word = visited.op.word();
    let before = steps.look_up_time(latest, word);
    match visited.op {
        Op::Load(_) => Ok(has_later_write(before, visited.ts)),
        Op::Store(_, _) | Op::Swap(_, _) => {
            steps.set_time_of_word(latest, word, latest_write_time(before, visited.ts))?;
            Ok(false)
        }
    }
}

/// Whether there is a time and it is later than the other.
fn has_later_write(latest: Option<u64>, ts: u64) -> bool
    ensures { result ≡ later_than latest ts }
{
    match latest {
        None => false,
        Some(time) => ts < time,
    }
}

/// The later of a time, if there is one, and another.
fn latest_write_time(latest: Option<u64>, ts: u64) -> u64
    ensures { result ≡ raised latest ts }
{
    match latest {
        None => ts,
        Some(time) => time.max(ts),
    }
}
