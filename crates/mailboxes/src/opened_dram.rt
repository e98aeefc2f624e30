//! The DRAM of a bank as the machine opens.
ghost use Rattle.std.specs.Prelude.{◌≡◌, ◌/◌, ◌%◌, ◌==◌, ◌⊎◌, ◌≤◌, true, IfOk, OnOk, if◌then◌else◌};
ghost use Rattle.machine_table.specs.SetUp.{is_good};
ghost use Rattle.machine_table.specs.Opening.{dram_of, with_word};

use dram_mts::Dram;
use machine_table::Config;
use network::LineNo;
use physiological_order::WordAddr;
use std::alloc::{AllocError, Global};

/// The DRAM of a bank with those words of the opening memory whose lines are at home there.
pub fn open_dram(
    alloc: Global,
    config: &Config,
    number: u32,
    words: &[(WordAddr, u64)],
) -> Result<Dram, AllocError>
    requires { is_good config.now ≡ true }
    ensures { IfOk result (λ dram. dram ≡ dram_of config.now number words.now) }
{
    let mut dram = Dram::new(alloc);
    for done in 0..words.len() {
        let word = words[words.len() - 1 - done];
        set_own_word(&mut dram, config, number, word.0, word.1)?;
    }
    Ok(dram)
}

// Sets a word if its line is at home at this bank.
fn set_own_word(
    dram: &mut Dram,
    config: &Config,
    number: u32,
    addr: WordAddr,
    value: u64,
) -> Result<(), AllocError>
    requires { is_good config.now ≡ true }
    ensures { OnOk result (dram.new ≡
        (if (addr / config.now.line_words) % config.now.banks == number
        then with_word dram.old (addr / config.now.line_words) (addr % config.now.line_words) value
        else dram.old)) }
{
    let words = config.line_words as u64;
    let line = addr.word() / words;
    if line % config.banks as u64 != number as u64 {
        return Ok(());
    }
    dram.set_word(LineNo(line), (addr.word() % words) as usize, value)
}
