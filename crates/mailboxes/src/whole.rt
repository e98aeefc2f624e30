//! Whether all seats of a machine are given.
ghost use Rattle.std.specs.Prelude.{◌≡◌, true};
ghost use Rattle.machine_table.specs.SetUp.{is_good};
ghost use Rattle.mailboxes.specs.Seats.{AllCoreSeats, AllBankSeats, AreAll};

use crate::bank_seat::BankSeat;
use crate::core_seat::CoreSeat;
use crate::machine::Machine;
use closed_machine::{Numbered, has_all_numbers};

impl Numbered for CoreSeat {
    ghost number = { λ p. p.mail.number };

    fn number(&self) -> u32 {
        self.mail.number
    }
}

impl Numbered for BankSeat {
    ghost number = { λ p. p.mail.number };

    fn number(&self) -> u32 {
        self.mail.number
    }
}

impl Machine {
    /// Whether every seat of the machine is among these seats of it.
    pub fn is_whole(&self, cores: &[CoreSeat], banks: &[BankSeat]) -> bool
        requires cores { AllCoreSeats self.now cores.now }
        requires banks { AllBankSeats self.now banks.now }
        ensures whole { result ≡ true → AreAll self.now cores.now banks.now }
        ensures missing { AreAll self.now cores.now banks.now → result ≡ true }
    {
        let config = self.set_up.config;
        if !has_all_numbers(cores, 0, config.cores) {
            return false;
        }
        has_all_numbers(banks, config.cores, config.banks)
    }
}
