//! A seat changes what it holds by itself, in one exchange: 0 is added to the word that counts completions.
ghost use Rattle.std.specs.Prelude.{◌≡◌, ◌<◌, false};
ghost use Rattle.seat_views.specs.Seated.{with_hold};
ghost use Rattle.seat_rule.specs.declared.views.Hold.{Hold};
ghost use Rattle.seat_rule.specs.Rule.{Changes, seat_count, slot_count};
ghost use Rattle.seat_rule.specs.Plays.{Serves, Standing, stood};
ghost use Rattle.seat_rule.specs.SeatMoves.{SeatMove};
ghost use Rattle.mailboxes.specs.SeatServing.{may_change};
ghost use Rattle.mailboxes.specs.Stored.{stored_bank, stored_core};
ghost use Rattle.mailboxes.specs.Places.{Belongs};
ghost use Rattle.mailboxes.specs.Seats.{IsLive};

use crate::machine::Machine;
use crate::sending::{SendingBank, SendingCore};
use crate::steps::{SlotSeat, SlotTable, StepChoice};
use atomic_table::Play;
use inbox::{Inbox, Refusal, Served};
use network::Message;
use physiological_order::Op;
use seat_rule::Hold;
use seat_rule::laws::changes_keep_the_rule;
use seat_rule::parts::moves_of_seats_are_changes;
use seat_views::View;
use std::marker::{Brand, PhantomData};

struct Stands<C> {
    marker: PhantomData<C>,
}

impl<C: StepChoice> Play<Option<Message>, View<Hold>> for Stands<C> {
    ghost then = { λ s m r n. stood C.set_up (seat_count C.set_up) C.to m n };
}

// What the seat holds becomes what the call picks.
fn store_hold<C: StepChoice>(table: &SlotTable, seat: &mut SlotSeat, word: usize)
    requires table { Belongs seat.old.table_id table.now.table_id table.now.key }
    requires word { word ≡ slot_count table.now.key }
    requires live { seat.old.me.0.spent ≡ false }
    requires choice { C.set_up ≡ table.now.key }
    requires change { (h : Hold) × (C.to ≡ with_hold seat.old.me.0 h) ×
        Serves seat.old.me.0.mine h ×
        Changes C.set_up (seat_count C.set_up) seat.old.me.0.number seat.old.me.0.mine h }
    ensures table { (seat.new.table_id ≡ seat.old.table_id) × (seat.new.id ≡ seat.old.id) }
    ensures stood { stood C.set_up (seat_count C.set_up) C.to seat.old.me seat.new.me }
{
    changes_keep_the_rule();
    table.fetch_add::<Stands<C>>(seat, word, 0);
}

/// Whether a serving changes anything, if the hand was full before, or empty.
pub(crate) fn serving_may_change(was_full: bool, served: &Result<Served, Refusal>) -> bool
    ensures { result ≡ may_change was_full served.now }
{
    match served {
        Ok(Served::Delivered | Served::Dropped | Served::Started) => true,
        Ok(Served::Held) => was_full,
        Ok(Served::Nothing) | Err(_) => false,
    }
}

/// What a core's seat holds becomes what it stores, if that is a move of the seat. If nothing changes, the call makes
/// no exchange.
pub(crate) fn change_core_hold_if(
    changes: bool,
    machine: &Machine,
    seat: &mut SlotSeat,
    part: &SendingCore,
    issued: &Vec<Op>,
    inbox: &Inbox<Message>,
)
    requires seat { IsLive machine.now seat.old }
    requires stands { Standing machine.now.set_up (seat_count machine.now.set_up)
        seat.old.me.0.number seat.old.me.0.mine }
    requires change { SeatMove machine.now.set_up seat.old.me.0.number seat.old.me.0.mine
        (stored_core seat.old.me.0.mine part.now issued.now.items inbox.now) }
    requires same { changes ≡ false →
        stored_core seat.old.me.0.mine part.now issued.now.items inbox.now ≡ seat.old.me.0.mine }
    ensures seat { (seat.new.table_id ≡ seat.old.table_id) × (seat.new.id ≡ seat.old.id) }
    ensures changed { seat.new.me ≡ (
      with_hold seat.old.me.0
          (stored_core seat.old.me.0.mine part.now issued.now.items inbox.now),
      seat.old.me.1,
    ) }
    ensures standing { Standing machine.now.set_up (seat_count machine.now.set_up)
        seat.old.me.0.number
        (stored_core seat.old.me.0.mine part.now issued.now.items inbox.now) }
{
    if changes {
        change_core_hold(machine, seat, part, issued, inbox);
    }
}

/// What a bank's seat holds becomes what it stores, if that is a move of the seat. If nothing changes, the call makes
/// no exchange.
pub(crate) fn change_bank_hold_if(
    changes: bool,
    machine: &Machine,
    seat: &mut SlotSeat,
    part: &SendingBank,
    inbox: &Inbox<Message>,
)
    requires seat { IsLive machine.now seat.old }
    requires stands { Standing machine.now.set_up (seat_count machine.now.set_up)
        seat.old.me.0.number seat.old.me.0.mine }
    requires change { SeatMove machine.now.set_up seat.old.me.0.number seat.old.me.0.mine
        (stored_bank seat.old.me.0.mine part.now inbox.now) }
    requires same { changes ≡ false →
        stored_bank seat.old.me.0.mine part.now inbox.now ≡ seat.old.me.0.mine }
    ensures seat { (seat.new.table_id ≡ seat.old.table_id) × (seat.new.id ≡ seat.old.id) }
    ensures changed { seat.new.me ≡ (
      with_hold seat.old.me.0 (stored_bank seat.old.me.0.mine part.now inbox.now),
      seat.old.me.1,
    ) }
    ensures standing { Standing machine.now.set_up (seat_count machine.now.set_up)
        seat.old.me.0.number (stored_bank seat.old.me.0.mine part.now inbox.now) }
{
    if changes {
        change_bank_hold(machine, seat, part, inbox);
    }
}

/// What a core's seat holds becomes what it stores, if that is a move of the seat.
pub(crate) fn change_core_hold(
    machine: &Machine,
    seat: &mut SlotSeat,
    part: &SendingCore,
    issued: &Vec<Op>,
    inbox: &Inbox<Message>,
)
    requires seat { IsLive machine.now seat.old }
    requires change { SeatMove machine.now.set_up seat.old.me.0.number seat.old.me.0.mine
        (stored_core seat.old.me.0.mine part.now issued.now.items inbox.now) }
    ensures seat { (seat.new.table_id ≡ seat.old.table_id) × (seat.new.id ≡ seat.old.id) }
    ensures changed { seat.new.me ≡ (
      with_hold seat.old.me.0
          (stored_core seat.old.me.0.mine part.now issued.now.items inbox.now),
      seat.old.me.1,
    ) }
    ensures standing { Standing machine.now.set_up (seat_count machine.now.set_up)
        seat.old.me.0.number
        (stored_core seat.old.me.0.mine part.now issued.now.items inbox.now) }
{
    change_hold::<Brand, SendingCore, Vec<Op>>(machine, seat, part, issued, inbox);
}

/// What a bank's seat holds becomes what it stores, if that is a move of the seat.
pub(crate) fn change_bank_hold(
    machine: &Machine,
    seat: &mut SlotSeat,
    part: &SendingBank,
    inbox: &Inbox<Message>,
)
    requires seat { IsLive machine.now seat.old }
    requires change { SeatMove machine.now.set_up seat.old.me.0.number seat.old.me.0.mine
        (stored_bank seat.old.me.0.mine part.now inbox.now) }
    ensures seat { (seat.new.table_id ≡ seat.old.table_id) × (seat.new.id ≡ seat.old.id) }
    ensures changed { seat.new.me ≡ (
      with_hold seat.old.me.0 (stored_bank seat.old.me.0.mine part.now inbox.now),
      seat.old.me.1,
    ) }
    ensures standing { Standing machine.now.set_up (seat_count machine.now.set_up)
        seat.old.me.0.number (stored_bank seat.old.me.0.mine part.now inbox.now) }
{
    change_hold::<Brand, SendingBank, ()>(machine, seat, part, &(), inbox);
}

// What a seat holds becomes what the call picks by what the seat stores.
fn change_hold<C: StepChoice, P, I>(
    machine: &Machine,
    seat: &mut SlotSeat,
    part: &P,
    issued: &I,
    inbox: &Inbox<Message>,
)
    requires seat { IsLive machine.now seat.old }
    requires choice { C.set_up ≡ machine.now.set_up }
    requires change { (h : Hold) × (C.to ≡ with_hold seat.old.me.0 h) ×
        Serves seat.old.me.0.mine h ×
        SeatMove C.set_up seat.old.me.0.number seat.old.me.0.mine h }
    ensures seat { (seat.new.table_id ≡ seat.old.table_id) × (seat.new.id ≡ seat.old.id) }
    ensures changed { (seat.new.me ≡ (C.to, seat.old.me.1)) ×
        Standing C.set_up (seat_count C.set_up) C.to.number C.to.mine }
{
    moves_of_seats_are_changes();
    let word = machine.table.slot_count();
    store_hold::<C>(&machine.table.shared, seat, word);
}
