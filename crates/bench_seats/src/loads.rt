//! Machines that are measured, and what their cores are issued.

use machine_table::Config;
use physiological_order::{Op, WordAddr};
use programs::OpProgram;
use std::alloc::{AllocError, Global};

/// The words that the operations are on.
const WORDS: u64 = 4096;

/// The options of a machine. Its private caches have 256 lines of one word. Its banks have 4,096 lines together, so
/// that none has to make room: a bank of n has 512 / n sets of 8 ways.
pub(crate) fn config_of(cores: u32, banks: u32) -> Config {
    Config {
        cores,
        banks,
        sets: 64,
        ways: 4,
        bank_sets: 512u32.checked_div(banks).unwrap_or(0),
        bank_ways: 8,
        line_words: 1,
        lease: 10,
        messages: 4096,
        opening_time: 0,
        private_write: false,
    }
}

/// A number that is mixed from another one: the steps of splitmix64.
fn mixed(number: u64) -> u64 {
    let first = number.wrapping_mul(0x9E37_79B9_7F4A_7C15);
    let second = (first ^ (first >> 30)).wrapping_mul(0xBF58_476D_1CE4_E5B9);
    let third = (second ^ (second >> 27)).wrapping_mul(0x94D0_49BB_1331_11EB);
    third ^ (third >> 31)
}

/// The operation of a place in the program of a core: a load three times in four, else a store, of a word that is
/// picked evenly. No two stores have the same value.
fn operation_of(core: u32, place: u64) -> Op {
    let number = place.wrapping_mul(64).wrapping_add(u64::from(core));
    let mixed = mixed(number);
    let word = WordAddr::at(mixed % WORDS);
    match (mixed >> 32) % 4 {
        0 => Op::Store(word, number),
        _ => Op::Load(word),
    }
}

/// The operations of a core.
fn operations(alloc: Global, core: u32, count: u32) -> Result<Vec<Op>, AllocError> {
    let mut ops = Vec::new(alloc);
    for place in 0..count {
        ops.push(operation_of(core, u64::from(place)))?;
    }
    Ok(ops)
}

/// The programs of all cores, `count` operations each; `None` if that is more than a core may be issued, or if memory
/// runs out.
pub(crate) fn programs_of(alloc: Global, cores: u32, count: u32) -> Option<Vec<OpProgram>> {
    let mut programs = Vec::new(alloc);
    for core in 0..cores {
        let ops = operations(alloc, core, count).ok()?;
        if ops.len() > 4_294_967_295 {
            return None;
        }
        programs.push(OpProgram::new(ops)).ok()?;
    }
    Some(programs)
}
