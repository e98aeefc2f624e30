//! A machine as it opens.
ghost use Rattle.std.specs.Prelude.{◌≡◌, ◌⊎◌, ◌<◌, ◌≤◌, [], IfOk, OnErr, OnOk, length, replicate, true};
ghost use Rattle.std.specs.FinMap.{empty, entries};
ghost use Rattle.machine_table.specs.SetUp.{is_good};
ghost use Rattle.machine_table.specs.Opening.{at_start, bank_config, core_config, dram_of, open_bank, open_core, row};
ghost use Rattle.machine_table.specs.Opening.{geometry};
ghost use Rattle.interleaving_core.specs.OpeningWords.{word_set};

use crate::core_masks::idle_core_masks;
use crate::histories::History;
use crate::machine_state::MachineState;
use core_pts::{Core, CoreConfig};
use dram_mts::Dram;
use llc_bank::{Bank, BankConfig};
use machine_table::Config;
use network::{InFlight, LineNo};
use physiological_order::{Memory, WordAddr};
use private_cache::Geometry;
use std::alloc::{AllocError, Global};

impl<H: History> MachineState<H> {
    /// A machine with this set-up and this memory. All the memory of its parts and messages is allocated here, but not
    /// that of records and operations.
    pub(crate) fn open(
        alloc: Global,
        config: Config,
        memory: Memory,
    ) -> Result<MachineState<H>, AllocError>
        requires { is_good config ≡ true }
        ensures { IfOk result (λ machine. machine ≡ at_start config memory) }
    {
        let cores = open_cores(alloc, config)?;
        let banks = open_banks(alloc, config)?;
        let drams = open_drams(alloc, config, &memory)?;
        let history = H::open(alloc, config.cores)?;
        let flight = InFlight::new(alloc, config.cores, config.banks, config.messages)?;
        Ok(MachineState {
            config,
            opening: memory,
            cores,
            banks,
            drams,
            flight,
            history,
            is_stopped: false,
            masks: idle_core_masks(config.cores),
        })
    }
}

// The cores as they open.
fn open_cores(alloc: Global, config: Config) -> Result<Vec<Core>, AllocError>
    requires { is_good config ≡ true }
    ensures { IfOk result (λ cores. cores.items ≡ row (open_core config) 0 config.cores) }
{
    let mut cores = Vec::new(alloc);
    for number in 0..config.cores {
        let core = core_config(config, number);
        cores.push(Core::new(alloc, core, private_cache_geometry(config))?)?;
    }
    Ok(cores)
}

/// What the core of a number is set up with.
pub(crate) fn core_config(config: Config, number: u32) -> CoreConfig
    ensures { result ≡ core_config config number }
{
    CoreConfig {
        number,
        banks: config.banks,
        line_words: config.line_words,
        lease: config.lease,
        private_write: config.private_write,
        opening_time: config.opening_time,
    }
}

/// The shape of each private cache.
pub(crate) fn private_cache_geometry(config: Config) -> Geometry
    ensures { result ≡ geometry config }
{
    Geometry {
        sets: config.sets,
        ways: config.ways,
    }
}

// The banks as they open.
fn open_banks(alloc: Global, config: Config) -> Result<Vec<Bank>, AllocError>
    requires { is_good config ≡ true }
    ensures { IfOk result (λ banks. banks.items ≡ row (open_bank config) 0 config.banks) }
{
    let mut banks = Vec::new(alloc);
    for number in 0..config.banks {
        banks.push(Bank::new(alloc, bank_config(config, number))?)?;
    }
    Ok(banks)
}

/// What the bank of a number is set up with.
pub(crate) fn bank_config(config: Config, number: u32) -> BankConfig
    ensures { result ≡ bank_config config number }
{
    BankConfig {
        number,
        banks: config.banks,
        sets: config.bank_sets,
        ways: config.bank_ways,
        lease: config.lease,
        opening_time: config.opening_time,
    }
}

// The DRAM of each bank, with the words of the opening memory.
fn open_drams(alloc: Global, config: Config, memory: &Memory) -> Result<Vec<Dram>, AllocError>
    requires { is_good config ≡ true }
    ensures { IfOk result (λ drams. drams.items ≡ row (λ b. dram_of config b (entries memory.now))
        0 config.banks) }
{
    let mut drams = empty_drams(alloc, config.banks)?;
    fill_drams(&mut drams, config, memory)?;
    Ok(drams)
}

/// Sets the words of the opening memory in DRAMs of zeros.
pub(crate) fn fill_drams(
    drams: &mut Vec<Dram>,
    config: Config,
    memory: &Memory,
) -> Result<(), AllocError>
    requires good { is_good config ≡ true }
    requires zeros { drams.old.items ≡ replicate config.banks empty }
    ensures { OnOk result (drams.new.items ≡ row (λ b. dram_of config b (entries memory.now))
        0 config.banks) }
{
    let mut words = memory.words()?;
    while let Some(word) = words.pop() {
        set_dram_word(drams, config, word.0, word.1)?;
    }
    Ok(())
}

// DRAMs of zeros.
fn empty_drams(alloc: Global, banks: u32) -> Result<Vec<Dram>, AllocError>
    ensures { IfOk result (λ drams. drams.items ≡ replicate banks empty) }
{
    let mut drams = Vec::new(alloc);
    for _ in 0..banks {
        drams.push(Dram::new(alloc))?;
    }
    Ok(drams)
}

// Sets a word of the opening memory in the DRAM of its line's bank.
fn set_dram_word(
    drams: &mut Vec<Dram>,
    config: Config,
    addr: WordAddr,
    value: u64,
) -> Result<(), AllocError>
    requires count { length drams.old.items ≡ config.banks }
    requires some { 1 ≤ config.banks }
    requires words { (config.line_words ≡ 1) ⊎ (config.line_words ≡ 8) }
    ensures { OnOk result (drams.new.items ≡ word_set config (addr, value) drams.old.items) }
{
    let words = config.line_words as u64;
    let line = addr.word() / words;
    let index = (addr.word() % words) as usize;
    let bank = (line % config.banks as u64) as usize;
    drams[bank].set_word(LineNo(line), index, value)
}
