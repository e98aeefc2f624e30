//! Measures the checker on a legal history: all its calls, or one call by itself. The numbers are records and cores.
ghost use Rattle.std.specs.Prelude.{◌<◌};

use crate::clock::{Told, now, since};
use physiological_order::{
    Memory, Op, Record, Steps, Verdict, WordAddr, check, check_counted, rises_by_number,
    stale_hits_counted,
};
use std::alloc::{AllocError, Global};
use std::io;
use std::rt::Clock;
use trace_texts::records_text;

/// The words that the history uses.
const WORDS: u64 = 4096;

/// The operation of a number: loads, stores and swaps in turn.
fn operation_of(number: u64) -> Op {
    let word = WordAddr::at(number.wrapping_mul(2_654_435_761) % WORDS);
    match number % 4 {
        0 => Op::Store(word, number),
        1 => Op::Swap(word, number),
        _ => Op::Load(word),
    }
}

/// Cores take turns, four operations share a time, and each receives what one memory gives it.
fn made(alloc: Global, records: u32, cores: u32) -> Result<Vec<Record>, AllocError>
    requires { 0 < cores }
{
    let mut memory = Memory::new(alloc);
    let mut made = Vec::with_capacity(alloc, records as usize)?;
    for number in 0..records {
        let op = operation_of(u64::from(number));
        made.push(Record {
            core: number % cores,
            place: number / cores,
            op,
            received: memory.perform(op)?,
            ts: u64::from(number / 4),
            number: u64::from(number),
        })?;
    }
    Ok(made)
}

/// The lists that the cores were issued.
fn issued(alloc: Global, records: &[Record], cores: u32) -> Result<Vec<Vec<Op>>, AllocError> {
    let mut lists: Vec<Vec<Op>> = Vec::with_capacity(alloc, cores as usize)?;
    for _ in 0..cores {
        lists.push(Vec::new(alloc))?;
    }
    for made in records {
        if let Some(list) = lists.get_mut(made.core as usize) {
            list.push(made.op)?;
        }
    }
    Ok(lists)
}

/// What all calls answered about a legal history.
#[derive(Clone, Copy)]
struct Seen {
    stale: u64,
    looks: u128,
    comparisons: u128,
}

/// The stale hits of a history, and its checks as it lies and backwards. `None`, too, if a check doesn't find it legal.
fn all_calls(alloc: Global, history: &mut Vec<Record>, lists: &[Vec<Op>]) -> Option<Seen> {
    let opening = Memory::new(alloc);
    if !rises_by_number(history) {
        return None;
    }
    let mut looks = Steps::new();
    let stale = stale_hits_counted(alloc, &mut looks, history).ok()?;
    let mut comparisons = Steps::new();
    let forwards = check_counted(alloc, &mut comparisons, &opening, lists, history).ok()?;
    history.reverse();
    let backwards = check(alloc, &opening, lists, history).ok()?;
    if forwards != Verdict::Legal || backwards != Verdict::Legal {
        return None;
    }
    Some(Seen {
        stale,
        looks: looks.made(),
        comparisons: comparisons.made(),
    })
}

/// Times one call. The count is of comparisons for `check`, of looks for `stale_hits`, and of bytes for
/// `records_text`; `made` has none.
fn one_call<R: Clock>(
    rt: &R,
    alloc: Global,
    word: &str,
    history: &[Record],
    lists: &[Vec<Op>],
) -> Option<Told> {
    let opening = Memory::new(alloc);
    if !rises_by_number(history) {
        return None;
    }
    let mut steps = Steps::new();
    let start = now(rt)?;
    let done = match word {
        "check" => match check_counted(alloc, &mut steps, &opening, lists, history) {
            Ok(Verdict::Legal) => steps.made(),
            _ => return None,
        },
        "stale_hits" => match stale_hits_counted(alloc, &mut steps, history) {
            Ok(_) => steps.made(),
            Err(AllocError) => return None,
        },
        "records_text" => records_text(alloc, history).ok()?.len() as u128,
        "made" => 0,
        _ => return None,
    };
    since(rt, &start, done)
}

/// Makes a history, and times one call on it.
pub(crate) fn measure<R: Clock>(
    rt: &R,
    alloc: Global,
    word: &str,
    [records, cores, _, _]: [u32; 4],
) -> Option<Told> {
    if cores == 0 {
        return None;
    }
    let history = made(alloc, records, cores).ok()?;
    let lists = issued(alloc, &history, cores).ok()?;
    one_call(rt, alloc, word, &history, &lists)
}

/// Checks a history whose times fall, which isn't legal; how many records it has.
pub(crate) fn fallen(alloc: Global, [records, cores, _, _]: [u32; 4]) -> Option<u64> {
    if cores == 0 {
        return None;
    }
    let mut history = made(alloc, records, cores).ok()?;
    let lists = issued(alloc, &history, cores).ok()?;
    for at in 0..history.len() {
        history[at].ts = u64::MAX.wrapping_sub(history[at].number);
    }
    match check(alloc, &Memory::new(alloc), &lists, &history).ok()? {
        Verdict::Legal => None,
        _ => Some(history.len() as u64),
    }
}

/// Makes a history, and gives what all calls answer about it.
fn measure_all(alloc: Global, [records, cores, _, _]: [u32; 4]) -> Option<Seen> {
    if cores == 0 {
        return None;
    }
    let mut history = made(alloc, records, cores).ok()?;
    let lists = issued(alloc, &history, cores).ok()?;
    all_calls(alloc, &mut history, &lists)
}

/// Prints what all calls answer about a history.
pub(crate) fn tell_all<R: AllocGlobal + Print>(rt: &R, numbers: [u32; 4]) -> io::Result<()> {
    let Some(seen) = measure_all(rt.alloc(), numbers) else {
        return Err(io::ErrorKind::InvalidInput.into());
    };
    println!(rt; "stale hits {}, {} looks", seen.stale, seen.looks)?;
    println!(rt; "Legal, {} comparisons", seen.comparisons)?;
    println!(rt; "Legal")
}
