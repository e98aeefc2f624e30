//! What can be looked up in a closed machine: the records, what cores were issued, and the values of words.
ghost use Rattle.std.specs.Prelude.{◌≡◌, ℕ, ◌<◌, ◌≤◌, List, [], map, Some, slice_get, IfOk};
ghost use Rattle.physiological_order.specs.declared.operation.Record.{Record};
ghost use Rattle.physiological_order.specs.Order.{flat, Legal, Arrangement, of_core, replay_end};
ghost use Rattle.physiological_order.specs.StaleHits.{RisesByNumber};
ghost use Rattle.protocol.specs.Issued.{IsIssued};
ghost use Rattle.machine_theorem.specs.Ownership.{coherent};
ghost use Rattle.closed_machine.specs.ValuesLeft.{ValuesLeft};
ghost use Rattle.closed_machine.specs.declared.parts.CorePart.{CorePart};
ghost use Rattle.closed_machine.specs.RunParts.{Parts, state_of_run};

use crate::numbered::find_by_number;
use crate::run::Run;
use crate::values::{value_after_records, values_after_records};
use machine_theorem::move_laws::{
    places_count_records, reached_states_have_the_invariant, records_are_in_order,
};
use physiological_order::{Op, Record, WordAddr};
use std::alloc::{AllocError, Global};

impl Run {
    /// The records of all completed operations, by number. Of a run that `close` gave, they are a legal history of the
    /// opening memory and of what the cores were issued. Each core was issued the operations of its records, in their
    /// order, and then its open one. Nothing was issued to a core that isn't there.
    pub fn records(&self) -> &[Record]
        ensures records { result.now ≡ self.now.records.items }
        ensures legal { (parts : Parts self.now) → Legal (flat self.now.set_up.memory)
            (state_of_run self.now parts).issued result.now }
        ensures rising { Parts self.now → RisesByNumber result.now }
        ensures issued { (parts : Parts self.now) (core : ℕ) →
            core < self.now.set_up.config.cores →
            IsIssued ((state_of_run self.now parts).issued core)
            (of_core core result.now) ((state_of_run self.now parts).cores core).open_op }
        ensures beyond { (parts : Parts self.now) (core : ℕ) →
            self.now.set_up.config.cores ≤ core → (state_of_run self.now parts).issued core ≡ [] }
    {
        places_count_records();
        reached_states_have_the_invariant();
        records_are_in_order();
        self.records.as_slice()
    }

    /// The operations that a core was issued, in order: all that its seat accepted. The list is empty for a core that
    /// isn't there.
    pub fn issued(&self, core: u32) -> &[Op]
        requires { Parts self.now }
        ensures issued { (parts : Parts self.now) → core < self.now.set_up.config.cores →
            result.now ≡ (state_of_run self.now parts).issued core }
        ensures accepted { core < self.now.set_up.config.cores → (i : ℕ) (p : CorePart) →
            slice_get self.now.cores.items i ≡ Some p → p.number ≡ core →
            result.now ≡ p.issued.items }
        ensures none { self.now.set_up.config.cores ≤ core → result.now ≡ [] }
    {
        if core >= self.set_up.config.cores {
            return &[];
        }
        let at = find_by_number(self.cores.as_slice(), core);
        self.cores[at].issued.as_slice()
    }

    /// A word's value where its line is: with the line's owner, or with its ownership in flight, or else in the bank,
    /// or else in a store on its way to DRAM, or else in DRAM. The records leave this value on the opening memory, in
    /// the order of their times. The call finds it in the records, and looks at each once.
    pub fn value(&self, addr: WordAddr) -> u64
        ensures value { (parts : Parts self.now) → result ≡ coherent self.now.set_up.config
            self.now.set_up.memory (state_of_run self.now parts) addr }
        ensures left { (arranged : List Record) → Arrangement self.now.records.items arranged →
            result ≡ replay_end (flat self.now.set_up.memory) (map (λ r. r.op) arranged) addr }
    {
        value_after_records(&self.set_up.memory, self.records.as_slice(), addr)
    }

    /// The values of these words, in their order, each as `value` answers it. The call looks at each record once,
    /// however many words there are. AllocError if memory for the list, or for the last write of each word, can't be
    /// allocated.
    pub fn values(&self, alloc: Global, words: &[WordAddr]) -> Result<Vec<u64>, AllocError>
        ensures value { IfOk result (λ values. (parts : Parts self.now) →
            values.items ≡ map (coherent self.now.set_up.config self.now.set_up.memory
            (state_of_run self.now parts)) words.now) }
        ensures left { IfOk result (λ values. ValuesLeft
            (flat self.now.set_up.memory) self.now.records.items words.now values.items) }
    {
        values_after_records(alloc, &self.set_up.memory, self.records.as_slice(), words)
    }
}
