//! A machine after a run by any driver, as reports look at it.
ghost use Rattle.std.specs.Prelude.{◌≡◌, [], map, slice_index_or, IfOk};
ghost use Rattle.physiological_order.specs.declared.operation.Op.{Op};
ghost use Rattle.physiological_order.specs.StaleHits.{RisesByNumber};
ghost use Rattle.machine_table.specs.Machine.{Machine};
ghost use Rattle.machine_theorem.specs.Coherence.{coherent};

use interleaving_core::System;
use machine_table::Counts;
use machine_theorem::move_laws::owners_and_values_are_of_states;
use mailboxes::Run;
use physiological_order::{Op, Record, WordAddr};
use std::alloc::{AllocError, Global};
use thread_driver::laws::closed_machines_list_what_was_issued;

/// A machine after a run. Reports have its records and what these left.
pub trait Finished {
    ghost use Rattle.std.specs.Prelude.{◌≡◌, [], map, slice_index_or, IfOk};
    ghost use Rattle.physiological_order.specs.declared.operation.Op.{Op};
    ghost use Rattle.physiological_order.specs.StaleHits.{RisesByNumber};
    ghost use Rattle.machine_table.specs.Machine.{Machine};
    ghost use Rattle.machine_theorem.specs.Coherence.{coherent};

    /// The machine as data.
    ghost shows: { Self → Machine → Type 0 };

    /// The records of all completed operations, by number.
    fn records(&self) -> &[Record]
        ensures records { (m : Machine) → shows self.now m → result.now ≡ m.records }
        ensures rising { (m : Machine) → shows self.now m → RisesByNumber result.now };

    /// The operations that a core was issued, in order. Empty for a core that isn't there.
    fn issued(&self, core: u32) -> &[Op]
        requires { (m : Machine) × shows self.now m }
        ensures { (m : Machine) → shows self.now m → result.now ≡ slice_index_or m.issued core [] };

    /// How many messages of the counted kinds were sent.
    fn counts(&self) -> Counts
        requires { (m : Machine) × shows self.now m }
        ensures { (m : Machine) → shows self.now m → result ≡ m.mail.counts };

    /// The values of these words, where their lines are, in their order.
    fn values(&self, alloc: Global, words: &[WordAddr]) -> Result<Vec<u64>, AllocError>
        ensures { IfOk result (λ values. (m : Machine) → shows self.now m →
            values.items ≡ map (coherent m) words.now) };
}

/// A machine that events drove.
impl Finished for System {
    ghost use Rattle.std.specs.Prelude.{◌≡◌};
    ghost use Rattle.machine_table.specs.Machine.{Machine};

    ghost shows = { λ system m. system ≡ m };

    fn records(&self) -> &[Record] {
        System::records(self)
    }

    fn issued(&self, core: u32) -> &[Op] {
        System::issued(self, core)
    }

    fn counts(&self) -> Counts {
        System::counts(self)
    }

    fn values(&self, alloc: Global, words: &[WordAddr]) -> Result<Vec<u64>, AllocError> {
        let mut values = Vec::with_capacity(alloc, words.len())?;
        for addr in words {
            values.push(System::coherent(self, *addr))?;
        }
        Ok(values)
    }
}

/// A machine that threads drove, after it was closed.
impl Finished for Run {
    ghost use Rattle.std.specs.Prelude.{◌≡◌};
    ghost use Rattle.machine_table.specs.Machine.{Machine};
    ghost use Rattle.closed_machine.specs.RunParts.{Parts};
    ghost use Rattle.thread_driver.specs.ThreadRuns.{machine_of};

    ghost shows = { λ run m. (parts : Parts run) × (machine_of run parts ≡ m) };

    fn records(&self) -> &[Record] {
        Run::records(self)
    }

    fn issued(&self, core: u32) -> &[Op] {
        closed_machines_list_what_was_issued();
        Run::issued(self, core)
    }

    fn counts(&self) -> Counts {
        Run::counts(self)
    }

    fn values(&self, alloc: Global, words: &[WordAddr]) -> Result<Vec<u64>, AllocError> {
        owners_and_values_are_of_states();
        Run::values(self, alloc, words)
    }
}
