//! Each step of a seat keeps the rule, and a machine whose seats are joined is one reached state.
ghost use Rattle.std.specs.Prelude.{◌≡◌, ℕ, ◌+◌, ◌*◌, ◌%◌, ◌^◌, ◌<◌, ◌≤◌, true, false, List, []};
ghost use Rattle.std.specs.Prelude.{◌∷◌, replicate, Option, Some, None, slice_get};
ghost use mathlib.Core.Option.{none, some};
ghost use lib.ListN.{get_elem?};
ghost use Rattle.atomic_table.specs.Table.{step, rest, Allows, Splits, Joins, opening, Final, Seen};
ghost use Rattle.physiological_order.specs.declared.operation.Op.{Op};
ghost use Rattle.physiological_order.specs.declared.operation.Record.{Record};
ghost use Rattle.network.specs.declared.message.Message.{Message};
ghost use Rattle.core_pts.specs.declared.attempt.Attempt.TheVariants.{Completed};
ghost use Rattle.core_pts.specs.CoreTable as core_table;
ghost use Rattle.core_pts.specs.CoreTable.{CoreState};
ghost use Rattle.machine_table.specs.SetUp.{is_good};
ghost use Rattle.machine_theorem.specs.Ownership.{owners};
ghost use Rattle.seat_views.specs.declared.views.View.{View};
ghost use Rattle.seat_views.specs.Seated.{first_view, seat_view, one_more, knows, spent_view};
ghost use Rattle.seat_views.specs.Seated.{with_hold};
ghost use Rattle.seat_rule.specs.declared.views.SetUp.{SetUp};
ghost use Rattle.seat_rule.specs.declared.views.Stage.TheVariants.{Idle, Writing, Reading};
ghost use Rattle.seat_rule.specs.declared.views.Hold.{Hold};
ghost use Rattle.seat_rule.specs.StateLaws.{StateLaws};
ghost use Rattle.seat_rule.specs.Rule.{Holds, Phase, Changes, seat_count, slot_count};
ghost use Rattle.seat_rule.specs.Rule.{from_of, to_of, node_of, opening_hold, no_hold};
ghost use Rattle.seat_rule.specs.Plays.{SeatState, saw_out, saw_in, gave, Serves, stood, finished};
ghost use Rattle.seat_rule.specs.Plays.{put_hold, take_hold};
ghost use Rattle.seat_rule.specs.Rule.{in_flight, state_of};
ghost use Rattle.seat_rule.specs.Ended.{Whole, Closes, FourAtMostLie, NoneTakenTwice, owners_by_place};

use machine_table::Config;
use machine_theorem::move_laws::{
    initial_states_are_reached, messages_find_their_parts, places_count_records,
    reached_parts_have_their_shape, reached_states_are_consistent, records_are_in_order,
};

/// What is known of every reached state, in one record.
pub(crate) fn laws_of_states()
    ensures { StateLaws }
{
    initial_states_are_reached();
    reached_states_are_consistent();
    messages_find_their_parts();
    reached_parts_have_their_shape();
    places_count_records();
    records_are_in_order();
}

/// A machine with a good set-up has 2 to 72 seats.
pub fn seats_are_few()
    ensures { (z : SetUp) → is_good z.config ≡ true →
        (1 < seat_count z) × (seat_count z ≤ 72) }
{}

/// A machine with a good set-up has at most 4,096 slots.
pub fn slots_are_few(config: &Config)
    requires { is_good config.now ≡ true }
    ensures { 8 * config.now.cores * config.now.banks ≤ 4096 }
{}

/// A machine as it opens keeps the rule: all words are 0, all slots are at home and empty, and there is one seat.
pub fn opened_machines_keep_the_rule()
    ensures { (z : SetUp) → is_good z.config ≡ true →
        Holds z (opening (replicate (slot_count z + 1) 0) (replicate (slot_count z) None)
        (first_view (opening_hold z 0))) }
{
    laws_of_states();
}

/// An idle seat may look at a slot of a link at whose source it is, and at one of a link at whose target it is. The
/// contract of a step names the machine's set-up by a variable of its own, `aim`, here and below.
pub fn looks_keep_the_rule()
    ensures outgoing { (z : SetUp) (slots id k : ℕ) (me : SeatState) → slots ≡ slot_count z →
        k < slot_count z → from_of z k ≡ me.0.number → me.0.spent ≡ false →
        me.0.mine.stage ≡ Idle →
        Allows (Holds z) slots id me k (λ x. x) (saw_out (step slots k 0 0 none) me) }
    ensures incoming { (z : SetUp) (slots id k : ℕ) (me : SeatState) (aim : SetUp) →
        slots ≡ slot_count z → aim ≡ z → k < slot_count z → to_of z k ≡ me.0.number →
        me.0.spent ≡ false → me.0.mine.stage ≡ Idle →
        Allows (Holds z) slots id me k (λ x. x) (saw_in aim (step slots k 0 0 none) me) }
{}

/// A seat that writes a slot, and has written a message of its outbox there that goes to the node at the link's
/// target, may give the slot back full; one that reads a slot, with an empty hand, and has moved the message out, may
/// give it back empty. The contract says what the seat holds afterwards.
pub fn puts_and_takes_keep_the_rule()
    ensures put { (z : SetUp) (slots id : ℕ) (before me : SeatState) (k : ℕ) (m : Message)
        (index : ℕ) (aim : SetUp) (to : View Hold) → slots ≡ slot_count z →
        me ≡ (before.0, (k, Some m) ∷ rest before.1) →
        to ≡ with_hold before.0 (put_hold before.0.mine k m index) → aim ≡ z →
        before.0.spent ≡ false → before.0.mine.stage ≡ Writing k →
        slice_get before.0.mine.outbox index ≡ Some m → m.to ≡ node_of z (to_of z k) →
        Allows (Holds z) slots id me k (λ _. 1) (λ _. gave aim (seat_count aim) to me) }
    ensures take { (z : SetUp) (slots id : ℕ) (me : SeatState) (k : ℕ) (m : Message)
        (aim : SetUp) (to : View Hold) → slots ≡ slot_count z → me.1 ≡ (k, None) ∷ [] →
        to ≡ with_hold me.0 (take_hold me.0.mine k m) → aim ≡ z → me.0.spent ≡ false →
        me.0.mine.stage ≡ Reading k m → me.0.mine.hand ≡ None →
        Allows (Holds z) slots id me k (λ _. 0) (λ _. gave aim (seat_count aim) to me) }
{}

/// A seat may come to hold something else, if that is a change of the state: 0 is added to the last word.
pub fn changes_keep_the_rule()
    ensures { (z : SetUp) (slots word id : ℕ) (me : SeatState) (aim : SetUp) (to : View Hold)
        (h : Hold) → slots ≡ slot_count z → word ≡ slot_count z → aim ≡ z →
        me.0.spent ≡ false → to ≡ with_hold me.0 h → Serves me.0.mine h →
        Changes aim (seat_count aim) me.0.number me.0.mine h →
        Allows (Holds z) slots id me word (λ x. (x + 0) % 2 ^ 64)
        (λ _. stood aim (seat_count aim) to me) }
{}

/// A core's seat may complete its open operation as its core's table says: 1 is added to the last word, and what that
/// word was is the record's number.
pub fn completions_keep_the_rule()
    ensures { (z : SetUp) (slots word id : ℕ) (me : SeatState) (op : Op) (received : Option ℕ)
        (ts : ℕ) (core : CoreState) (aim : SetUp) → slots ≡ slot_count z →
        word ≡ slot_count z → aim ≡ z → is_good z.config ≡ true →
        me.0.number < z.config.cores → me.0.spent ≡ false → me.0.mine.core.open_op ≡ Some op →
        core_table.attempt me.0.mine.core ≡ (Some (Completed received ts), core) →
        me.0.mine.core.issued < 2 ^ 32 →
        Allows (Holds z) slots id me word (λ x. (x + 1) % 2 ^ 64)
        (finished aim (seat_count aim) core op received ts me) }
{
    laws_of_states();
}

/// The first seat may make another until all seats of the machine are made, which holds what a seat of its number
/// opens with; and a seat may be joined to another.
pub fn made_and_joined_seats_keep_the_rule()
    ensures made { (z : SetUp) (id : ℕ) (v : View Hold) (aim : SetUp) → aim ≡ z →
        v.spent ≡ false → 0 < v.made → v.made < seat_count z →
        Splits (Holds z) id v (one_more v) (seat_view v.made (opening_hold aim v.made)) }
    ensures joined { (z : SetUp) (id : ℕ) (v : View Hold) (other : ℕ) (u : View Hold) →
        v.spent ≡ false → u.spent ≡ false →
        Joins (Holds z) id v other u (knows v u) (spent_view no_hold) }
{}

/// The table of a machine, closed with one of its seats, shows one reached state, of which all that this seat held and
/// knew are parts. The last word counts its records, and if all seats are known and idle, each slot has its message or
/// none.
pub fn closed_machines_are_one_state()
    ensures { (z : SetUp) (id : ℕ) (w : View Hold) (words : List ℕ)
        (slots : List (Option Message)) (count : ℕ) → is_good z.config ≡ true →
        w.spent ≡ false → Final (Seen (Holds z) id w) words slots →
        get_elem? words (slot_count z) ≡ some count →
        Closes z ((w.number, w.mine) ∷ w.known) count slots }
{
    laws_of_states();
}

/// The owners of a line in the state that seats and slots make are in the caches of cores, or in flight with a seat or
/// in a slot.
pub fn owners_are_added_up()
    ensures { (z : SetUp) (seats : ℕ → Hold) (phases : ℕ → Phase) (log : List Record) (line : ℕ) →
        owners z.config (state_of z (seat_count z) seats
        (in_flight (seat_count z) (slot_count z) seats phases) log) line ≡
        owners_by_place z seats phases line }
{}

/// At the end, on each link: no message was taken more often than it was put, for any weights of messages; and at most
/// four more messages were put than taken.
pub fn links_lose_and_double_nothing()
    ensures taken { (z : SetUp) (seats : ℕ → Hold) (phases : ℕ → Phase) (log : List Record) →
        Whole z seats phases log → NoneTakenTwice z seats }
    ensures lying { (z : SetUp) (seats : ℕ → Hold) (phases : ℕ → Phase) (log : List Record) →
        Whole z seats phases log → FourAtMostLie z seats }
{}
