//! What moves are and reach: events and histories of machines, and states that are consistent.
ghost use Rattle.std.specs.Prelude.{◌≡◌, ℕ, ◌+◌, ◌-◌, ◌^◌, ◌<◌, true, List, length, Option, Some};
ghost use Rattle.std.specs.Prelude.{slice_get};
ghost use Rattle.std.specs.List.{AllByRecursion};
ghost use Rattle.std.specs.Ordering.{nat_cmp};
ghost use Rattle.std.specs.FinMap.{FinMap};
ghost use Rattle.physiological_order.specs.declared.operation.Op.{Op};
ghost use Rattle.physiological_order.specs.declared.operation.Record.{Record};
ghost use Rattle.physiological_order.specs.Order.{of_core};
ghost use Rattle.network.specs.declared.message.Message.{Message};
ghost use Rattle.protocol.specs.Issued.{IsIssued, listed};
ghost use Rattle.machine_table.specs.declared.config.Config.{Config};
ghost use Rattle.machine_table.specs.declared.event.Event.{Event};
ghost use Rattle.machine_table.specs.Machine.{Machine};
ghost use Rattle.machine_table.specs.SetUp.{is_good};
ghost use Rattle.machine_table.specs.Step.{record_of};
ghost use Rattle.machine_table.specs.Opening.{at_start};
ghost use Rattle.machine_table.specs.Transition.{transition};
ghost use Rattle.machine_table.specs.Runs.{after_all};
ghost use Rattle.machine_theorem.specs.Bags.{SameBag};
ghost use Rattle.machine_theorem.specs.Coherence as machine;
ghost use Rattle.machine_theorem.specs.Kept.{Invariant};
ghost use Rattle.machine_theorem.specs.Shape.{IsCore, IsBank};
ghost use Rattle.machine_theorem.specs.States.{State, Same, seen, numbered, initial_state};
ghost use Rattle.machine_theorem.specs.Moves.{Move, Reached};
ghost use Rattle.machine_theorem.specs.Events.{Shows, IsEvent};
ghost use Rattle.machine_theorem.specs.Effects.{Effect};
ghost use Rattle.machine_theorem.specs.Ownership.{owners, coherent};
ghost use Rattle.machine_theorem.specs.Consistent.{Consistent, FindsPart};
ghost use Rattle.machine_theorem.specs.Staying.{BanksStay, CoresStay};

/// For a machine that keeps the invariant, with any capacity, numbers of messages and stop: an event that is answered
/// Waiting, Idle, Held or with a refusal changes nothing of its state, and every other event is a move of one part.
pub fn events_are_moves()
    ensures { (m : Machine) (event : Event) → Invariant m →
        Effect m (transition m event).0 (transition m event).1 }
{}

/// And every move of a reached state is such an event: there is a machine in the one state that runs, keeps the
/// invariant, has rising message numbers and room for one more message, and is in the other state after the event.
/// There are 2^64 - 1 message numbers, so the law covers states with fewer messages in flight.
pub fn moves_are_events()
    ensures { (config : Config) (opening : FinMap nat_cmp ℕ) (a b : State) → is_good config ≡ true →
        Reached config opening a → length a.bag < 2 ^ 64 - 1 → Move config a b →
        IsEvent config opening a b }
{}

/// After any events, refused ones included, moves reach the state of the machine.
pub fn histories_are_reached()
    ensures { (config : Config) (opening : FinMap nat_cmp ℕ) (events : List Event) →
        is_good config ≡ true →
        Reached config opening (seen (after_all (at_start config opening) events)) }
{}

/// Every state that moves reach from the initial state of a machine with a good set-up: its records are a legal
/// history of the opening memory and of what its cores were issued; a line has at most one owner, where grants and
/// returns in flight count; a word's coherent value is the one that the records leave; no recall is lost; and the part
/// that a message in flight goes to has a case for it.
pub fn reached_states_are_consistent()
    ensures { (config : Config) (opening : FinMap nat_cmp ℕ) (a : State) → is_good config ≡ true →
        Reached config opening a → Consistent config opening a }
{}

/// Every reached state, with its parts in lists and its messages numbered, is a machine in that state that keeps the
/// invariant: what holds of those, holds of it.
pub fn reached_states_have_the_invariant()
    ensures invariant { (config : Config) (opening : FinMap nat_cmp ℕ) (a : State) →
        is_good config ≡ true → Reached config opening a → Invariant (numbered config opening a) }
    ensures shows { (config : Config) (opening : FinMap nat_cmp ℕ) (a : State) →
        is_good config ≡ true →
        Reached config opening a → Shows config opening a (numbered config opening a) }
{}

/// In every reached state, each message in flight, in any order of them, goes between nodes of its kind, and the part
/// that it goes to is there and has a case for it.
pub fn messages_find_their_parts()
    ensures { (config : Config) (opening : FinMap nat_cmp ℕ) (a : State) → is_good config ≡ true →
        Reached config opening a → (messages : List Message) → SameBag a.bag messages →
        AllByRecursion (FindsPart config a) messages }
{}

/// The owners of a line in a state are those in its machine, and the same in the same state; so are the coherent values
/// of a reached state. A machine that keeps the invariant has the owners and the coherent values of its state.
pub fn owners_and_values_are_of_states()
    ensures seen { (m : Machine) → Invariant m → (line : ℕ) →
        machine.owners m line ≡ owners m.config (seen m) line }
    ensures values { (m : Machine) → Invariant m → (word : ℕ) →
        machine.coherent m word ≡ coherent m.config m.opening (seen m) word }
    ensures numbered { (config : Config) (opening : FinMap nat_cmp ℕ) (a : State) (line : ℕ) →
        machine.owners (numbered config opening a) line ≡ owners config a line }
    ensures numbered_values { (config : Config) (opening : FinMap nat_cmp ℕ) (a : State) →
        is_good config ≡ true → Reached config opening a → (word : ℕ) →
        machine.coherent (numbered config opening a) word ≡ coherent config opening a word }
    ensures owners { (config : Config) (a b : State) → Same a b → (line : ℕ) →
        owners config a line ≡ owners config b line }
    ensures coherent { (config : Config) (opening : FinMap nat_cmp ℕ) (a b : State) →
        is_good config ≡ true → Reached config opening a → Same a b → (word : ℕ) →
        coherent config opening a word ≡ coherent config opening b word }
{}

/// In every reached state, a core was issued the operations of its records, in their order, and then the one that is
/// open: it counts as many, and the place of the record that completes the open one is how many records it has.
pub fn places_count_records()
    ensures issued { (config : Config) (opening : FinMap nat_cmp ℕ) (a : State) →
        is_good config ≡ true → Reached config opening a → (core : ℕ) → core < config.cores →
        IsIssued (a.issued core) (of_core core a.records) (a.cores core).open_op }
    ensures count { (config : Config) (opening : FinMap nat_cmp ℕ) (a : State) →
        is_good config ≡ true → Reached config opening a → (core : ℕ) → core < config.cores →
        (a.cores core).issued ≡
        length (of_core core a.records) + length (listed (a.cores core).open_op) }
    ensures place { (config : Config) (opening : FinMap nat_cmp ℕ) (a : State) →
        is_good config ≡ true → Reached config opening a → (core : ℕ) → core < config.cores →
        (op : Op) (received : Option ℕ) (ts : ℕ) → (a.cores core).open_op ≡ Some op →
        (record_of core (length a.records) (a.cores core) op received ts).place ≡
        length (of_core core a.records) }
{}

/// In every reached state, the number of a record is how many records come before it.
pub fn records_are_in_order()
    ensures { (config : Config) (opening : FinMap nat_cmp ℕ) (a : State) →
        Reached config opening a →
        (k : ℕ) (done : Record) → slice_get a.records k ≡ Some done → done.number ≡ k }
{}

/// The initial state, part by part, is that of the machine as it opens, and is reached.
pub fn initial_states_are_reached()
    ensures same { (config : Config) (opening : FinMap nat_cmp ℕ) →
        Same (initial_state config opening) (seen (at_start config opening)) }
    ensures reached { (config : Config) (opening : FinMap nat_cmp ℕ) →
        Reached config opening (initial_state config opening) }
{}

/// In every reached state, each core and each bank that there is knows its number and how the machine was set up, and a
/// core counts the operations that it was issued.
pub fn reached_parts_have_their_shape()
    ensures cores { (config : Config) (opening : FinMap nat_cmp ℕ) (a : State) →
        is_good config ≡ true → Reached config opening a → (core : ℕ) → core < config.cores →
        IsCore config core (a.issued core) (a.cores core) }
    ensures banks { (config : Config) (opening : FinMap nat_cmp ℕ) (a : State) →
        is_good config ≡ true → Reached config opening a → (bank : ℕ) → bank < config.banks →
        IsBank config bank (a.banks bank) }
{}

/// A core that holds or drops a message stays as it is, and it starts nothing on behalf of one.
pub fn waiting_cores_stay()
    ensures { CoresStay }
{}

/// A bank that holds or drops a message stays as it is, and it drops none that it has a case for; a DRAM answers each
/// that it has a case for.
pub fn waiting_banks_stay()
    ensures { BanksStay }
{}
