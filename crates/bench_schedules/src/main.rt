//! Measurements of runs: programs of random operations on a machine with a core for each, driven by rounds or by a seed
//! until all are done. docs/BENCHMARKS.md has the table.
//!
//! The words are `round`, `forgotten`, `seed`, `large_seed`, `round_events` and `seed_events`, and three numbers follow
//! each: cores, words, and operations of a core. Several may stand one after the other. Each prints how many operations
//! were completed; the last two keep the events and print how many there were. With `forgotten` the machine began to
//! keep its lines in order and gave that up before its rounds. `large_seed` has the most banks, and the largest caches
//! and banks, that there may be.
#![tactic(auto)]

ghost use Rattle.std.specs.Prelude.{◌≡◌, length};

use interleaving_core::{Config, System};
use physiological_order::{Memory, Op, WordAddr};
use programs::{End, OpProgram};
use rand_core::SeedableRng;
use rand_core::utils::NextWord;
use rand_pcg::Pcg32;
use schedules::{Policy, drive_round, drive_seed, run_to_end};
use std::alloc::{AllocError, Global};
use std::io;
use std::rt::Env;

/// The machine that is measured, but for its cores: the program's defaults.
const ONE_CORE: Config = Config {
    cores: 1,
    banks: 1,
    sets: 64,
    ways: 4,
    bank_sets: 256,
    bank_ways: 8,
    line_words: 1,
    lease: 10,
    messages: 4096,
    opening_time: 0,
    private_write: false,
};

/// The same with the most banks, and the most places in caches and banks.
const LARGE: Config = Config {
    banks: 8,
    sets: 1024,
    ways: 16,
    bank_sets: 1024,
    bank_ways: 16,
    ..ONE_CORE
};

/// A random operation: half are loads, three in ten stores, two in ten swaps, each of a word that is picked evenly.
fn operation(generator: &mut Pcg32, words: u32) -> Op {
    let kind = generator.next_word() % 10;
    let word = WordAddr::at(u64::from(generator.next_word().checked_rem(words).unwrap_or(0)));
    let value = u64::from(generator.next_word());
    match kind {
        0..=4 => Op::Load(word),
        5..=7 => Op::Store(word, value),
        _ => Op::Swap(word, value),
    }
}

/// The operations of a core.
fn operations(alloc: Global, core: u32, words: u32, count: u32) -> Result<Vec<Op>, AllocError> {
    let mut generator = Pcg32::seed_from_u64(u64::from(core));
    let mut ops = Vec::new(alloc);
    for _ in 0..count {
        ops.push(operation(&mut generator, words))?;
    }
    Ok(ops)
}

/// The programs of all cores, `count` operations each; `None` if that is more than a core may be issued, or if memory
/// runs out.
fn programs_of(alloc: Global, cores: u32, words: u32, count: u32) -> Option<Vec<OpProgram>> {
    let mut programs = Vec::new(alloc);
    for core in 0..cores {
        let ops = operations(alloc, core, words, count).ok()?;
        if ops.len() > 4_294_967_295 {
            return None;
        }
        programs.push(OpProgram::new(ops)).ok()?;
    }
    Some(programs)
}

/// Runs the programs to their ends: the completed operations, or the events if they are kept. `None` if some program
/// isn't done.
fn driven(alloc: Global, word: &str, system: &mut System, programs: &mut [OpProgram]) -> Option<u64>
    requires { length programs.old ≡ system.old.config.cores }
{
    let kept = match word {
        "round_events" => drive_round(alloc, system, programs, u32::MAX),
        "seed_events" => drive_seed(alloc, system, programs, 1, u32::MAX),
        _ => {
            let policy = match word {
                "round" | "forgotten" => Policy::Rounds,
                "seed" | "large_seed" => Policy::Seed(1),
                _ => return None,
            };
            return match run_to_end(alloc, system, programs, policy, u32::MAX) {
                End::AllDone => Some(system.records().len() as u64),
                _ => None,
            };
        }
    };
    match kept.end {
        End::AllDone => Some(kept.events.len() as u64),
        _ => None,
    }
}

/// One measurement; `None` if there is none of that name, or it couldn't be made.
fn measure(alloc: Global, word: &str, [cores, words, count]: [u32; 3]) -> Option<u64> {
    let config = match word {
        "large_seed" => Config { cores, ..LARGE },
        _ => Config { cores, ..ONE_CORE },
    };
    let mut system = System::new(alloc, config, Memory::new(alloc)).ok()?;
    if word == "forgotten" {
        system.keep_order().ok()?;
        system.forget_order();
    }
    let mut programs = programs_of(alloc, cores, words, count)?;
    if programs.len() as u64 != u64::from(system.cores()) {
        return None;
    }
    driven(alloc, word, &mut system, &mut programs)
}

/// The number that a word of the command line is.
fn number_at(words: &[String], at: usize) -> Option<u32> {
    words.get(at)?.as_str().parse().ok()
}

/// The numbers that follow a word, three at most, with zeros for those that aren't there.
fn numbers_after(words: &[String], at: usize) -> [u32; 3] {
    let mut numbers = [0; 3];
    for place in 0..3usize {
        match number_at(words, at.saturating_add(place).saturating_add(1)) {
            Some(number) => numbers[place] = number,
            None => break,
        }
    }
    numbers
}

fn run<R: AllocGlobal + Print + Env>(rt: &R) -> io::Result<()> {
    let words: Vec<String> = std::env::args(rt)?.collect(rt.alloc())?;
    for at in 1..words.len() {
        let word = words[at].as_str();
        if number_at(&words, at).is_none() {
            let Some(done) = measure(rt.alloc(), word, numbers_after(&words, at)) else {
                return Err(io::ErrorKind::InvalidInput.into());
            };
            println!(rt; "{word}: {done}")?;
        }
    }
    Ok(())
}

fn main(rt: HostRuntime) -> io::Result<()> {
    run(&rt)
}
