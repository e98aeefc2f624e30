//! A machine that is opened again, with the memory that its parts have.
ghost use Rattle.std.specs.Prelude.{◌≡◌, [], IfOk, OnOk, length, replicate, true};
ghost use Rattle.std.specs.FinMap.{empty, entries};
ghost use Rattle.machine_table.specs.SetUp.{is_good};
ghost use Rattle.machine_table.specs.Opening.{at_start, dram_of, open_bank, open_core, row};

use crate::core_masks::idle_core_masks;
use crate::histories::History;
use crate::machine_state::MachineState;
use crate::opening::{bank_config, core_config, fill_drams, private_cache_geometry};
use core_pts::Core;
use dram_mts::Dram;
use llc_bank::Bank;
use machine_table::Config;
use physiological_order::Memory;
use std::alloc::AllocError;

impl<H: History> MachineState<H> {
    /// The machine as it opens with this memory, set up as it is. Its parts keep their memory.
    pub(crate) fn reopen(self, memory: Memory) -> Result<MachineState<H>, AllocError>
        requires good { is_good self.config ≡ true }
        requires cores { length self.cores ≡ self.config.cores }
        requires banks { length self.banks ≡ self.config.banks }
        requires drams { length self.drams ≡ self.config.banks }
        requires issued { length self.issued ≡ self.config.cores }
        ensures { IfOk result (λ machine. machine ≡ at_start self.config memory) }
    {
        let config = self.config;
        let mut cores = self.cores;
        let mut banks = self.banks;
        let mut drams = self.drams;
        reopen_parts(&mut cores, &mut banks, &mut drams, config, &memory)?;
        let mut flight = self.flight;
        flight.clear();
        let mut history = self.history;
        history.clear(config.cores);
        Ok(MachineState {
            config,
            opening: memory,
            cores,
            banks,
            drams,
            flight,
            history,
            is_stopped: false,
            masks: idle_core_masks(config.cores),
        })
    }
}

// All cores, banks and DRAMs as they open with this memory.
fn reopen_parts(
    cores: &mut Vec<Core>,
    banks: &mut Vec<Bank>,
    drams: &mut Vec<Dram>,
    config: Config,
    memory: &Memory,
) -> Result<(), AllocError>
    requires good { is_good config ≡ true }
    requires cores { length cores.old.items ≡ config.cores }
    requires banks { length banks.old.items ≡ config.banks }
    requires drams { length drams.old.items ≡ config.banks }
    ensures cores { OnOk result (cores.new.items ≡ row (open_core config) 0 config.cores) }
    ensures banks { OnOk result (banks.new.items ≡ row (open_bank config) 0 config.banks) }
    ensures drams { OnOk result (drams.new.items ≡ row (λ b. dram_of config b (entries memory.now))
        0 config.banks) }
{
    reopen_cores(cores, config)?;
    reopen_banks(banks, config)?;
    clear_drams(drams);
    fill_drams(drams, config, memory)
}

// All cores as they open.
fn reopen_cores(cores: &mut Vec<Core>, config: Config) -> Result<(), AllocError>
    requires good { is_good config ≡ true }
    requires count { length cores.old.items ≡ config.cores }
    ensures { OnOk result (cores.new.items ≡ row (open_core config) 0 config.cores) }
{
    for at in 0..cores.len() {
        cores[at].reopen(
            core_config(config, at as u32),
            private_cache_geometry(config),
        )?;
    }
    Ok(())
}

// All banks as they open.
fn reopen_banks(banks: &mut Vec<Bank>, config: Config) -> Result<(), AllocError>
    requires good { is_good config ≡ true }
    requires count { length banks.old.items ≡ config.banks }
    ensures { OnOk result (banks.new.items ≡ row (open_bank config) 0 config.banks) }
{
    for at in 0..banks.len() {
        banks[at].reopen(bank_config(config, at as u32))?;
    }
    Ok(())
}

// All DRAMs without lines.
fn clear_drams(drams: &mut Vec<Dram>)
    ensures { drams.new.items ≡ replicate (length drams.old.items) empty }
{
    for at in 0..drams.len() {
        drams[at].clear();
    }
}
