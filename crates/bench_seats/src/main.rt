//! Measurements of a machine that threads share: workers, each in a thread, give its seats turns until all cores have
//! completed their operations. docs/BENCHMARKS.md has the table.
//!
//! The word `seats` is followed by four numbers: cores, banks, operations of a core, and threads. The word `rounds`
//! and the first three make the same operations by rounds, on a machine that isn't shared. The word `opened` is
//! followed by cores, banks, words of opening memory, and threads, and makes no operation. Several may stand one after
//! the other. Each prints how many operations were completed; after the word `time`, each prints its nanoseconds, too.
#![tactic(auto)]

mod loads;
mod runs;

use runs::{opened, rounds, seats};
use std::io;
use std::rt::{Clock, Env};
use std::thread::Threads;

/// The number that a word of the command line is.
fn number_at(words: &[String], at: usize) -> Option<u32> {
    words.get(at)?.as_str().parse().ok()
}

/// The numbers that follow a word, four at most, with zeros for those that aren't there.
fn numbers_after(words: &[String], at: usize) -> [u32; 4] {
    let mut numbers = [0; 4];
    for place in 0..4usize {
        match number_at(words, at.saturating_add(place).saturating_add(1)) {
            Some(number) => numbers[place] = number,
            None => break,
        }
    }
    numbers
}

fn run<R: AllocGlobal + Print + Env + Threads + Sync + Clock>(rt: &R) -> io::Result<()> {
    let words: Vec<String> = std::env::args(rt)?.collect(rt.alloc())?;
    let mut is_timed = false;
    for at in 1..words.len() {
        let word = words[at].as_str();
        if word == "time" {
            is_timed = true;
        } else if number_at(&words, at).is_none() {
            let numbers = numbers_after(&words, at);
            let told = match word {
                "rounds" => rounds(rt, rt.alloc(), numbers),
                "seats" => seats(rt, rt.alloc(), numbers),
                "opened" => opened(rt, rt.alloc(), numbers),
                _ => None,
            };
            let Some(told) = told else {
                return Err(io::ErrorKind::InvalidInput.into());
            };
            if is_timed {
                println!(rt; "{word}: {} in {} ns", told.completed, told.nanos)?;
            } else {
                println!(rt; "{word}: {}", told.completed)?;
            }
        }
    }
    Ok(())
}

fn main(rt: HostRuntime) -> io::Result<()> {
    run(&rt)
}
