//! Measurements: of arenas, of histories and of one machine. docs/BENCHMARKS.md has the tables.
//!
//! Each word below is a measurement, and its numbers follow it. Several may stand one after the other. Each prints its
//! result; after the word `time`, each but `history` prints its nanoseconds, too.
//!
//! | Words | Numbers | Result |
//! |---|---|---|
//! | `make`, `move`, `churn` | rounds, cells, lists | a sum of what was seen |
//! | `history` | records, cores | its stale hits, and the verdicts as it lies and backwards |
//! | `made`, `check`, `stale_hits`, `records_text` | records, cores | nothing, comparisons, looks, bytes |
//! | `fallen` | records, cores | the records, whose times fall |
//! | `opened` | words of an opening memory, banks | the value of the last word |
//! | `machine` | events, cores, words, machines that are opened | the first number |
#![tactic(auto)]

mod arenas;
mod clock;
mod histories;
mod machines;

use clock::{Told, now, since};
use std::io;
use std::rt::{Clock, Env};

/// The number that a word of the command line is.
fn number_at(words: &[String], at: usize) -> Option<u32> {
    words.get(at)?.as_str().parse().ok()
}

/// The numbers that follow a word, four at most, with zeros for those that aren't there.
fn numbers_after(words: &[String], at: usize) -> [u32; 4] {
    let mut numbers = [0; 4];
    for place in 0..4usize {
        match number_at(words, at.saturating_add(place).saturating_add(1)) {
            Some(number) => numbers[place] = number,
            None => break,
        }
    }
    numbers
}

/// One measurement; `None` if there is none of that name, or it couldn't be made.
fn measure<R: AllocGlobal + Clock>(rt: &R, word: &str, numbers: [u32; 4]) -> Option<Told> {
    let alloc = rt.alloc();
    let start = now(rt)?;
    let done = match word {
        "make" => arenas::make(alloc, numbers)?,
        "move" => arenas::moves(alloc, numbers)?,
        "churn" => arenas::churn(alloc, numbers)?,
        "fallen" => histories::fallen(alloc, numbers)?,
        "opened" => machines::opened(alloc, numbers)?,
        "machine" => machines::measure(alloc, numbers)?,
        _ => return histories::measure(rt, alloc, word, numbers),
    };
    since(rt, &start, u128::from(done))
}

/// Prints the result of a measurement, and its time if the words ask for it.
fn tell<R: AllocGlobal + Print + Clock>(
    rt: &R,
    word: &str,
    numbers: [u32; 4],
    is_timed: bool,
) -> io::Result<()> {
    if word == "history" {
        return histories::tell_all(rt, numbers);
    }
    let Some(told) = measure(rt, word, numbers) else {
        return Err(io::ErrorKind::InvalidInput.into());
    };
    if is_timed {
        println!(rt; "{word}: {} in {} ns", told.done, told.nanos)
    } else {
        println!(rt; "{word}: {}", told.done)
    }
}

fn run<R: AllocGlobal + Print + Env + Clock>(rt: &R) -> io::Result<()> {
    let words: Vec<String> = std::env::args(rt)?.collect(rt.alloc())?;
    let mut is_timed = false;
    for at in 1..words.len() {
        let word = words[at].as_str();
        if word == "time" {
            is_timed = true;
        } else if number_at(&words, at).is_none() {
            tell(rt, word, numbers_after(&words, at), is_timed)?;
        }
    }
    Ok(())
}

fn main(rt: HostRuntime) -> io::Result<()> {
    run(&rt)
}
