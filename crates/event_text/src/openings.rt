//! What a line `machine` or `seats` opens: a configuration, and the words that its memory opens with.

use crate::causes::Cause;
use crate::words::Words;
use machine_table::Config;
use physiological_order::{Memory, WordAddr};
use run_options::MachineOptions;
use std::alloc::{AllocError, Global};

/// What a line opens.
#[derive(Drop)]
pub struct Opening {
    pub config: Config,
    /// Words with their values.
    pub words: Vec<(WordAddr, u64)>,
}

/// The number of an option in 32 bits.
fn option_in_32_bits(number: u64) -> u32 {
    u32::try_from(number).unwrap_or(u32::MAX)
}

/// What is opened if no option says otherwise: the program's machine, with two cores.
fn default_config() -> Config {
    let options = MachineOptions::DEFAULT;
    Config {
        cores: 2,
        banks: option_in_32_bits(options.banks),
        sets: option_in_32_bits(options.sets),
        ways: option_in_32_bits(options.ways),
        bank_sets: option_in_32_bits(options.bank_sets),
        bank_ways: option_in_32_bits(options.bank_ways),
        line_words: option_in_32_bits(options.line_words),
        lease: options.lease,
        messages: option_in_32_bits(options.messages),
        opening_time: options.time,
        private_write: options.private_write,
    }
}

/// Reads the value of an option.
fn read_config_option(
    config: &mut Config,
    option: &str,
    words: &mut Words<'_>,
) -> Result<(), Cause> {
    match option {
        "cores" => config.cores = words.next_small_number()?,
        "banks" => config.banks = words.next_small_number()?,
        "sets" => config.sets = words.next_small_number()?,
        "ways" => config.ways = words.next_small_number()?,
        "bank-sets" => config.bank_sets = words.next_small_number()?,
        "bank-ways" => config.bank_ways = words.next_small_number()?,
        "line-words" => config.line_words = words.next_small_number()?,
        "lease" => config.lease = words.next_number()?,
        "messages" => config.messages = words.next_small_number()?,
        "time" => config.opening_time = words.next_number()?,
        "private-write" => config.private_write = read_yes_or_no(words)?,
        _ => return Err(Cause::Option),
    }
    Ok(())
}

fn read_yes_or_no(words: &mut Words<'_>) -> Result<bool, Cause> {
    match words.next_word() {
        Some("yes") => Ok(true),
        Some("no") => Ok(false),
        _ => Err(Cause::YesOrNo),
    }
}

/// The words after `with`, up to the end: addresses, each with its value.
fn read_opening_words(alloc: Global, words: &mut Words<'_>) -> Result<Vec<(WordAddr, u64)>, Cause> {
    let mut values = Vec::new(alloc);
    let mut address = words.next_address()?;
    for _ in 0..u64::MAX {
        values.push((address, words.next_number()?))?;
        let Some(word) = words.next_word() else {
            break;
        };
        address = words.address_of_word(word)?;
    }
    Ok(values)
}

/// Reads what follows `machine` or `seats`.
pub fn read_opening(alloc: Global, words: &mut Words<'_>) -> Result<Opening, Cause> {
    let mut config = default_config();
    for _ in 0..u64::MAX {
        match words.next_word() {
            None => break,
            Some("with") => {
                let words = read_opening_words(alloc, words)?;
                return Ok(Opening { config, words });
            }
            Some(option) => read_config_option(&mut config, option, words)?,
        }
    }
    Ok(Opening {
        config,
        words: Vec::new(alloc),
    })
}

/// Reads what follows `reopen`: `with` and words, or nothing.
pub fn read_reopening_words(
    alloc: Global,
    words: &mut Words<'_>,
) -> Result<Vec<(WordAddr, u64)>, Cause> {
    match words.next_word() {
        None => Ok(Vec::new(alloc)),
        Some("with") => read_opening_words(alloc, words),
        Some(_) => Err(Cause::With),
    }
}

/// A memory with these words.
pub fn opening_memory_of(alloc: Global, words: &[(WordAddr, u64)]) -> Result<Memory, AllocError> {
    let mut memory = Memory::new(alloc);
    for (word, value) in words {
        memory.set(*word, *value)?;
    }
    Ok(memory)
}
