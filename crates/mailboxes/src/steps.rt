//! The single steps of a seat, one exchange each: it looks at a slot, puts a message into it, or takes the message out
//! of it. The first seat makes the others, and a seat takes in what another knows.
ghost use Rattle.std.specs.Prelude.{◌≡◌, ℕ, ◌+◌, ◌<◌, false, [], ◌∷◌, Option, Some, None, slice_get};
ghost use mathlib.Core.Option.{none};
ghost use Rattle.atomic_table.specs.Table.{step, Allows};
ghost use Rattle.network.specs.declared.message.Message.{Message};
ghost use Rattle.seat_views.specs.declared.views.View.{View};
ghost use Rattle.seat_views.specs.Seated.{first_view, seat_view, one_more, knows, spent_view, with_hold};
ghost use Rattle.seat_rule.specs.declared.views.Hold.{Hold};
ghost use Rattle.seat_rule.specs.declared.views.Stage.TheVariants.{Idle, Writing, Reading};
ghost use Rattle.seat_rule.specs.Rule.{Holds, seat_count, slot_count, from_of, to_of, node_of};
ghost use Rattle.seat_rule.specs.Rule.{opening_hold, no_hold, no_set_up};
ghost use Rattle.seat_rule.specs.Plays.{saw_out, saw_in, gave, put_hold, take_hold, Standing};
ghost use Rattle.mailboxes.specs.Places.{Belongs};

use atomic_table::{Join, Play, Seat, Shared, Split, TableRule};
use network::{Body, Message};
use seat_rule::laws::{
    looks_keep_the_rule, made_and_joined_seats_keep_the_rule, puts_and_takes_keep_the_rule,
};
use seat_rule::{Hold, SetUp};
use seat_views::View;
use std::marker::{Brand, PhantomData};

type Known = View<Hold>;

/// The rule that all seats keep.
pub struct Law;

impl TableRule<Option<Message>, Known, SetUp> for Law {
    ghost holds = { Holds };

    ghost first = { λ z. first_view (opening_hold z 0) };
}

/// A seat at the table of slots.
pub type SlotSeat = Seat<Option<Message>, Known>;

/// The table of slots, as seats share it.
pub type SlotTable = Shared<Option<Message>, Known, SetUp, Law>;

struct LookOut;

impl Play<Option<Message>, Known> for LookOut {
    ghost then = { saw_out };
}

/// How the machine was set up, and the view after a step. Each call picks them.
pub trait StepChoice {
    ghost use Rattle.seat_views.specs.declared.views.View.{View};
    ghost use Rattle.seat_rule.specs.declared.views.SetUp.{SetUp};
    ghost use Rattle.seat_rule.specs.declared.views.Hold.{Hold};

    ghost set_up: { SetUp };

    ghost to: { View Hold };
}

impl StepChoice for Brand {
    ghost set_up = { no_set_up };

    ghost to = { first_view no_hold };
}

struct LookIn<C> {
    marker: PhantomData<C>,
}

impl<C: StepChoice> Play<Option<Message>, Known> for LookIn<C> {
    ghost then = { saw_in C.set_up };
}

struct Gives<C> {
    marker: PhantomData<C>,
}

impl<C: StepChoice> Play<Option<Message>, Known> for Gives<C> {
    ghost then = { λ s m r n. gave C.set_up (seat_count C.set_up) C.to m n };
}

struct SeatSplit<C> {
    marker: PhantomData<C>,
}

impl<C: StepChoice> Split<Known> for SeatSplit<C> {
    ghost left = { one_more };

    ghost right = { λ v. seat_view v.made (opening_hold C.set_up v.made) };
}

struct SeatJoin;

impl Join<Known> for SeatJoin {
    ghost both = { knows };

    ghost spent = { spent_view no_hold };
}

/// Looks at a slot that goes out from the seat, and answers its word. A slot that is found empty is then out with the
/// seat.
pub fn look_at_outgoing_slot(table: &SlotTable, seat: &mut SlotSeat, slot: usize) -> u64
    requires table { Belongs seat.old.table_id table.now.table_id table.now.key }
    requires slot { (slot < slot_count table.now.key) ×
        (from_of table.now.key slot ≡ seat.old.me.0.number) }
    requires idle { (seat.old.me.0.spent ≡ false) × (seat.old.me.0.mine.stage ≡ Idle) }
    ensures table { (seat.new.table_id ≡ seat.old.table_id) × (seat.new.id ≡ seat.old.id) }
    ensures saw { saw_out (step 0 slot 0 0 none) seat.old.me result seat.new.me }
{
    looks_keep_the_rule();
    table.load::<LookOut>(seat, slot)
}

/// Looks at a slot that comes in to the seat, and answers its word. A slot that is found full is then out with the
/// seat, and its message is addressed to the seat.
pub fn look_at_incoming_slot(table: &SlotTable, seat: &mut SlotSeat, slot: usize) -> u64
    requires table { Belongs seat.old.table_id table.now.table_id table.now.key }
    requires slot { (slot < slot_count table.now.key) ×
        (to_of table.now.key slot ≡ seat.old.me.0.number) }
    requires idle { (seat.old.me.0.spent ≡ false) × (seat.old.me.0.mine.stage ≡ Idle) }
    ensures table { (seat.new.table_id ≡ seat.old.table_id) × (seat.new.id ≡ seat.old.id) }
    ensures saw { saw_in table.now.key (step 0 slot 0 0 none) seat.old.me result seat.new.me }
{
    look_at_incoming_slot_as::<Brand>(table, seat, slot)
}

fn look_at_incoming_slot_as<C: StepChoice>(
    table: &SlotTable,
    seat: &mut SlotSeat,
    slot: usize,
) -> u64
    requires table { Belongs seat.old.table_id table.now.table_id table.now.key }
    requires slot { (slot < slot_count table.now.key) ×
        (to_of table.now.key slot ≡ seat.old.me.0.number) }
    requires idle { (seat.old.me.0.spent ≡ false) × (seat.old.me.0.mine.stage ≡ Idle) }
    requires choice { C.set_up ≡ table.now.key }
    ensures table { (seat.new.table_id ≡ seat.old.table_id) × (seat.new.id ≡ seat.old.id) }
    ensures saw { saw_in C.set_up (step 0 slot 0 0 none) seat.old.me result seat.new.me }
{
    looks_keep_the_rule();
    table.load::<LookIn<C>>(seat, slot)
}

// Gives the slot back with the word, and the view becomes what the call picks.
fn give_slot_back<C: StepChoice>(table: &SlotTable, seat: &mut SlotSeat, slot: usize, word: u64)
    requires table { (seat.old.table_id ≡ table.now.table_id) × (slot < table.now.table_id.words) }
    requires rule { Allows (Holds table.now.key) table.now.table_id.slots seat.old.id seat.old.me
        slot (λ _. word) (λ _. gave C.set_up (seat_count C.set_up) C.to seat.old.me) }
    ensures table { (seat.new.table_id ≡ seat.old.table_id) × (seat.new.id ≡ seat.old.id) }
    ensures gave { gave C.set_up (seat_count C.set_up) C.to seat.old.me seat.new.me }
{
    table.swap::<Gives<C>>(seat, slot, word);
}

/// Writes a message into the slot that is out with the seat, and gives it back full. The message was that at `index`
/// of the outbox.
pub fn send_into_slot(
    table: &SlotTable,
    seat: &mut SlotSeat,
    slot: usize,
    message: Message,
    index: usize,
)
    requires table { Belongs seat.old.table_id table.now.table_id table.now.key }
    requires slot { (slot < slot_count table.now.key) × (seat.old.me.1 ≡ (slot, None) ∷ []) }
    requires writing { (seat.old.me.0.spent ≡ false) ×
        (seat.old.me.0.mine.stage ≡ Writing slot) ×
        (slice_get seat.old.me.0.mine.outbox index ≡ Some message) ×
        (message.to ≡ node_of table.now.key (to_of table.now.key slot)) }
    ensures table { (seat.new.table_id ≡ seat.old.table_id) × (seat.new.id ≡ seat.old.id) }
    ensures sent { seat.new.me ≡
        (with_hold seat.old.me.0 (put_hold seat.old.me.0.mine slot message index), []) }
    ensures standing { Standing table.now.key (seat_count table.now.key) seat.old.me.0.number
        (put_hold seat.old.me.0.mine slot message index) }
{
    send_into_slot_as::<Brand>(table, seat, slot, message, index);
}

fn send_into_slot_as<C: StepChoice>(
    table: &SlotTable,
    seat: &mut SlotSeat,
    slot: usize,
    message: Message,
    index: usize,
)
    requires table { Belongs seat.old.table_id table.now.table_id table.now.key }
    requires slot { (slot < slot_count table.now.key) × (seat.old.me.1 ≡ (slot, None) ∷ []) }
    requires writing { (seat.old.me.0.spent ≡ false) ×
        (seat.old.me.0.mine.stage ≡ Writing slot) ×
        (slice_get seat.old.me.0.mine.outbox index ≡ Some message) ×
        (message.to ≡ node_of table.now.key (to_of table.now.key slot)) }
    requires choice { (C.to ≡
        with_hold seat.old.me.0 (put_hold seat.old.me.0.mine slot message index)) ×
        (C.set_up ≡ table.now.key) }
    ensures table { (seat.new.table_id ≡ seat.old.table_id) × (seat.new.id ≡ seat.old.id) }
    ensures sent { (seat.new.me ≡ (C.to, [])) ×
        Standing C.set_up (seat_count C.set_up) C.to.number C.to.mine }
{
    puts_and_takes_keep_the_rule();
    match table.exchange(seat, slot, Some(message)) {
        None => {}
        Some(_) => unreachable!(),
    }
    give_slot_back::<C>(table, seat, slot, 1);
}

/// Moves the message out of the slot that is out with the seat, and gives it back empty.
pub fn receive_from_slot(table: &SlotTable, seat: &mut SlotSeat, slot: usize) -> Message
    requires table { Belongs seat.old.table_id table.now.table_id table.now.key }
    requires slot { (slot < slot_count table.now.key) × (seat.old.me.0.spent ≡ false) ×
        (seat.old.me.0.mine.hand ≡ None) }
    requires reading { (m : Message) × (seat.old.me.0.mine.stage ≡ Reading slot m) ×
        (seat.old.me.1 ≡ (slot, Some m) ∷ []) }
    ensures table { (seat.new.table_id ≡ seat.old.table_id) × (seat.new.id ≡ seat.old.id) }
    ensures taken { (seat.old.me.0.mine.stage ≡ Reading slot result) × (seat.new.me ≡
        (with_hold seat.old.me.0 (take_hold seat.old.me.0.mine slot result), [])) }
    ensures standing { Standing table.now.key (seat_count table.now.key) seat.old.me.0.number
        (take_hold seat.old.me.0.mine slot result) }
{
    let found = table.exchange(seat, slot, None);
    let message = found.unwrap();
    let _body: Body = message.body;
    receive_from_slot_as::<Brand>(table, seat, slot, message)
}

fn receive_from_slot_as<C: StepChoice>(
    table: &SlotTable,
    seat: &mut SlotSeat,
    slot: usize,
    message: Message,
) -> Message
    requires table { Belongs seat.old.table_id table.now.table_id table.now.key }
    requires slot { (slot < slot_count table.now.key) × (seat.old.me.0.spent ≡ false) ×
        (seat.old.me.0.mine.hand ≡ None) × (seat.old.me.1 ≡ (slot, None) ∷ []) }
    requires reading { seat.old.me.0.mine.stage ≡ Reading slot message }
    requires choice { (C.to ≡ with_hold seat.old.me.0 (take_hold seat.old.me.0.mine slot message)) ×
        (C.set_up ≡ table.now.key) }
    ensures table { (seat.new.table_id ≡ seat.old.table_id) × (seat.new.id ≡ seat.old.id) }
    ensures message { result ≡ message }
    ensures taken { (seat.new.me ≡ (C.to, [])) ×
        Standing C.set_up (seat_count C.set_up) C.to.number C.to.mine }
{
    puts_and_takes_keep_the_rule();
    give_slot_back::<C>(table, seat, slot, 0);
    message
}

/// Makes the next seat.
pub fn make_seat(table: &SlotTable, first: &mut SlotSeat) -> SlotSeat
    requires table { Belongs first.old.table_id table.now.table_id table.now.key }
    requires more { (first.old.me.0.spent ≡ false) × (0 < first.old.me.0.made) ×
        (first.old.me.0.made < seat_count table.now.key) }
    ensures table { (first.new.table_id ≡ first.old.table_id) × (first.new.id ≡ first.old.id) ×
        (result.table_id ≡ first.old.table_id) }
    ensures made { (first.new.me ≡ (one_more first.old.me.0, first.old.me.1)) × (result.me ≡
        (seat_view first.old.me.0.made (opening_hold table.now.key first.old.me.0.made), [])) }
{
    make_seat_as::<Brand>(table, first)
}

fn make_seat_as<C: StepChoice>(table: &SlotTable, first: &mut SlotSeat) -> SlotSeat
    requires table { Belongs first.old.table_id table.now.table_id table.now.key }
    requires more { (first.old.me.0.spent ≡ false) × (0 < first.old.me.0.made) ×
        (first.old.me.0.made < seat_count table.now.key) }
    requires choice { C.set_up ≡ table.now.key }
    ensures table { (first.new.table_id ≡ first.old.table_id) × (first.new.id ≡ first.old.id) ×
        (result.table_id ≡ first.old.table_id) }
    ensures made { (first.new.me ≡ (one_more first.old.me.0, first.old.me.1)) × (result.me ≡
        (seat_view first.old.me.0.made (opening_hold C.set_up first.old.me.0.made), [])) }
{
    made_and_joined_seats_keep_the_rule();
    table.split_seat::<SeatSplit<C>>(first)
}

/// Takes in what another seat knows, which is then given up.
pub fn join_view(table: &SlotTable, seat: &mut SlotSeat, other: SlotSeat)
    requires table { Belongs seat.old.table_id table.now.table_id table.now.key ×
        (other.table_id ≡ table.now.table_id) }
    requires live { (seat.old.me.0.spent ≡ false) × (other.me.0.spent ≡ false) ×
        (other.me.1 ≡ []) }
    ensures table { (seat.new.table_id ≡ seat.old.table_id) × (seat.new.id ≡ seat.old.id) }
    ensures met { seat.new.me ≡ (knows seat.old.me.0 other.me.0, seat.old.me.1) }
{
    made_and_joined_seats_keep_the_rule();
    table.join_seat::<SeatJoin>(seat, other);
}
