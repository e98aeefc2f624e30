//! The records of the cores of a reached state, at the places of their numbers, are all its records.
ghost use Rattle.std.specs.Prelude.{◌≡◌, ℕ, ◌<◌, true, List, length};
ghost use Rattle.std.specs.Ordering.{nat_cmp};
ghost use Rattle.std.specs.FinMap.{FinMap};
ghost use Rattle.physiological_order.specs.declared.operation.Record.{Record};
ghost use Rattle.physiological_order.specs.Order.{of_core};
ghost use Rattle.machine_table.specs.declared.config.Config.{Config};
ghost use Rattle.machine_table.specs.SetUp.{is_good};
ghost use Rattle.machine_theorem.specs.States.{State};
ghost use Rattle.machine_theorem.specs.Moves.{Reached};
ghost use Rattle.closed_machine.specs.Merged.{StandIn};

use machine_theorem::laws::machines_with_the_invariant_are_consistent;
use machine_theorem::move_laws::{reached_states_have_the_invariant, records_are_in_order};

/// In a reached state, the records of each core are among all records at the places of their numbers.
pub(crate) fn records_of_cores_stand_by_number()
    ensures { (config : Config) (opening : FinMap nat_cmp ℕ) (a : State) →
        Reached config opening a → (core : ℕ) → StandIn a.records (of_core core a.records) }
{
    records_are_in_order();
}

/// And a list of as many records that has the records of each core at the places of their numbers has all records of
/// the state in their order.
pub(crate) fn placed_records_are_all()
    ensures { (config : Config) (opening : FinMap nat_cmp ℕ) (a : State) (placed : List Record) →
        is_good config ≡ true → Reached config opening a → length placed ≡ length a.records →
        ((core : ℕ) → core < config.cores → StandIn placed (of_core core a.records)) →
        placed ≡ a.records }
{
    records_are_in_order();
    reached_states_have_the_invariant();
    machines_with_the_invariant_are_consistent();
}
