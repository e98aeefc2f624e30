//! The machine as it opens, with all its seats.
ghost use Rattle.std.specs.Prelude.{◌≡◌, ℕ, ◌+◌, ◌<◌, ◌≤◌, true, false, [], length, IfOk, IsErrOf};
ghost use Rattle.std.specs.FinMap.{entries};
ghost use Rattle.machine_table.specs.SetUp.{is_good};
ghost use Rattle.mailboxes.specs.Seats.{AllNewCores, AllNewBanks, IsNewCore, HasMade};

use crate::bank_seat::BankSeat;
use crate::core_seat::CoreSeat;
use crate::machine::Machine;
use crate::opened_dram::open_dram;
use crate::steps::{SlotSeat, make_seat};
use atomic_table::Table;
use machine_table::{Config, OpenError};
use physiological_order::{Memory, WordAddr};
use seat_rule::SetUp;
use seat_rule::laws::{opened_machines_keep_the_rule, slots_are_few};
use seat_rule::parts::seats_stand;
use std::alloc::{AllocError, Global};

/// A machine with this set-up and this memory, and its seats by number: those of its cores, and those of its banks.
/// BadConfig exactly if a value of the configuration is out of its range.
pub fn open(
    alloc: Global,
    config: Config,
    memory: Memory,
) -> Result<(Machine, Vec<CoreSeat>, Vec<BankSeat>), OpenError>
    ensures set_up { IfOk result (λ r. (r.0.set_up.config ≡ config) ×
        (r.0.set_up.memory ≡ memory)) }
    ensures cores { IfOk result (λ r. (length r.1.items ≡ config.cores) ×
        AllNewCores r.0 0 r.1.items) }
    ensures banks { IfOk result (λ r. (length r.2.items ≡ config.banks) ×
        AllNewBanks r.0 config.cores r.2.items) }
    ensures bad { is_good config ≡ false → IsErrOf result OpenError.BadConfig }
    ensures not_bad { IsErrOf result OpenError.BadConfig → is_good config ≡ false }
{
    if !config.is_good() {
        return Err(OpenError::BadConfig);
    }
    match open_seats(alloc, SetUp { config, memory }) {
        Ok(all) => Ok(all),
        Err(AllocError) => Err(OpenError::NoMemory),
    }
}

// The machine and its seats.
fn open_seats(
    alloc: Global,
    set_up: SetUp,
) -> Result<(Machine, Vec<CoreSeat>, Vec<BankSeat>), AllocError>
    requires { is_good set_up.config ≡ true }
    ensures set_up { IfOk result (λ r. r.0.set_up ≡ set_up) }
    ensures cores { IfOk result (λ r. (length r.1.items ≡ set_up.config.cores) ×
        AllNewCores r.0 0 r.1.items) }
    ensures banks { IfOk result (λ r. (length r.2.items ≡ set_up.config.banks) ×
        AllNewBanks r.0 set_up.config.cores r.2.items) }
{
    seats_stand();
    let (machine, mut first) = open_table(alloc, set_up)?;
    let mut cores = open_cores(alloc, &machine, &mut first)?;
    let banks = open_banks(alloc, &machine, &mut first)?;
    let first = CoreSeat::new(alloc, &machine, first, 0)?;
    cores.insert(0, first)?;
    Ok((machine, cores, banks))
}

// The machine, whose slots are all empty, and the first seat.
fn open_table(alloc: Global, set_up: SetUp) -> Result<(Machine, SlotSeat), AllocError>
    requires { is_good set_up.config ≡ true }
    ensures { IfOk result (λ r. (r.0.set_up ≡ set_up) × HasMade r.0 1 r.1) }
{
    opened_machines_keep_the_rule();
    slots_are_few(&set_up.config);
    let config = set_up.config;
    let slots = 8 * config.cores as usize * config.banks as usize;
    let words = Vec::from_elem(alloc, 0u64, slots + 1)?;
    let (table, first) = Table::vacant(alloc, words.as_slice(), slots, &set_up)?;
    Ok((Machine { table, set_up }, first))
}

// The seats of all cores but the first.
fn open_cores(
    alloc: Global,
    machine: &Machine,
    first: &mut SlotSeat,
) -> Result<Vec<CoreSeat>, AllocError>
    requires { HasMade machine.now 1 first.old }
    ensures cores { IfOk result (λ cores.
        (length cores.items + 1 ≡ machine.now.set_up.config.cores) ×
        AllNewCores machine.now 1 cores.items) }
    ensures first { IfOk result (λ cores. HasMade machine.now machine.now.set_up.config.cores
        first.new) }
{
    seats_stand();
    let mut cores = Vec::new(alloc);
    for number in 1..machine.set_up.config.cores {
        let seat = make_seat(&machine.table.shared, first);
        cores.push(CoreSeat::new(alloc, machine, seat, number)?)?;
    }
    Ok(cores)
}

// The seats of all banks.
fn open_banks(
    alloc: Global,
    machine: &Machine,
    first: &mut SlotSeat,
) -> Result<Vec<BankSeat>, AllocError>
    requires { HasMade machine.now machine.now.set_up.config.cores first.old }
    ensures banks { IfOk result (λ banks. (length banks.items ≡ machine.now.set_up.config.banks) ×
        AllNewBanks machine.now machine.now.set_up.config.cores banks.items) }
    ensures first { IfOk result (λ banks. (n : ℕ) × HasMade machine.now n first.new) }
{
    seats_stand();
    let config = machine.set_up.config;
    let words = machine.set_up.memory.words()?;
    let mut banks = Vec::new(alloc);
    for number in 0..config.banks {
        let dram = open_dram(alloc, &config, number, words.as_slice())?;
        let seat = make_seat(&machine.table.shared, first);
        let seat_number = config.cores + number;
        banks.push(BankSeat::new(alloc, machine, seat, seat_number, dram)?)?;
    }
    Ok(banks)
}
