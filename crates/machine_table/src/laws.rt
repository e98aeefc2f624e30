//! What every answer says of the machine afterwards, and what a machine opens with. The functions do nothing: their
//! contracts are the laws.
ghost use Rattle.std.specs.Prelude.{◌≡◌, ◌<◌, ℕ, [], false, true, length, replicate, slice_get, Some};
ghost use Rattle.std.specs.Ordering.{nat_cmp};
ghost use Rattle.std.specs.FinMap.{FinMap};
ghost use Rattle.machine_table.specs.declared.config.Config.{Config};
ghost use Rattle.machine_table.specs.declared.event.Event.{Event};
ghost use Rattle.machine_table.specs.Machine.{Machine};
ghost use Rattle.machine_table.specs.Opening.{at_start, open_bank, open_core};
ghost use Rattle.machine_table.specs.Transition.{transition};
ghost use Rattle.machine_table.specs.Answered.{Answered};

use crate::event::{Answer, Refusal};

/// Every refusal but Exhausted leaves the machine as it was, and Exhausted only stops it; NoMemory is never answered;
/// Waiting, Idle and Held change nothing; a completion adds its record with the next number, and no other answer adds
/// one; and a machine that is stopped answers every event with Stopped.
pub fn every_answer_keeps_its_word()
    ensures answered { (m : Machine) (event : Event) → Answered m (transition m event).0
        (transition m event).1 }
    ensures stopped { (m : Machine) (event : Event) → m.is_stopped ≡ true →
        transition m event ≡ (Answer.Refused Refusal.Stopped, m) }
{}

/// A machine opens with as many cores, banks and DRAMs as its configuration asks for. Each core and each bank has its
/// number; its sets and ways, its lease, its time and the rest of its set-up are those of the configuration, value by
/// value. Nothing is in flight, issued or completed, and the machine runs.
pub fn machines_open_as_configured()
    ensures set_up { (config : Config) (opening : FinMap nat_cmp ℕ) →
        let m = at_start config opening in
        (m.config ≡ config) × (m.opening ≡ opening) }
    ensures many { (config : Config) (opening : FinMap nat_cmp ℕ) →
        let m = at_start config opening in
        (length m.cores ≡ config.cores) × (length m.banks ≡ config.banks) ×
        (length m.drams ≡ config.banks) }
    ensures cores { (config : Config) (opening : FinMap nat_cmp ℕ) (core : ℕ) →
        core < config.cores →
        slice_get (at_start config opening).cores core ≡ Some (open_core config core) }
    ensures banks { (config : Config) (opening : FinMap nat_cmp ℕ) (bank : ℕ) →
        bank < config.banks →
        slice_get (at_start config opening).banks bank ≡ Some (open_bank config bank) }
    ensures rest { (config : Config) (opening : FinMap nat_cmp ℕ) →
        let m = at_start config opening in
        (m.mail.messages ≡ []) × (m.mail.next ≡ 0) × (m.issued ≡ replicate config.cores []) ×
        (m.records ≡ []) × (m.is_stopped ≡ false) }
{}
