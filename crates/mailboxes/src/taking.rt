//! A seat takes messages out of slots.
ghost use Rattle.std.specs.Prelude.{◌≡◌, ℕ, ◌+◌, ◌*◌, ◌%◌, ◌<◌, ◌≤◌, [], ◌∷◌, false, IfSome, None, Some, MatchOption};
ghost use Rattle.network.specs.declared.message.Message.{Message};
ghost use Rattle.inbox.specs.Inboxes.{inbox};
ghost use Rattle.seat_views.specs.Seated.{with_hold};
ghost use Rattle.seat_rule.specs.declared.views.Stage.TheVariants.{Idle, Reading};
ghost use Rattle.seat_rule.specs.Rule.{seat_count, slot_count};
ghost use Rattle.seat_rule.specs.Plays.{Standing, take_hold};
ghost use Rattle.mailboxes.specs.Incoming.{AreIncoming};
ghost use Rattle.mailboxes.specs.Places.{Belongs, incoming, incoming_count};
ghost use Rattle.mailboxes.specs.BoxMoves.{FindsFull, FindsNone, IsAt, Stands, Stays, Takes, hold};

use crate::ends::Slots;
use crate::machine::Machine;
use crate::mailbox::Mailbox;
use crate::steps::{SlotSeat, look_at_incoming_slot, receive_from_slot};
use crate::taken::Take;
use inbox::Inbox;
use network::{Body, Message};
use seat_rule::laws::slots_are_few;
use seat_rule::parts::seats_stand;

// The place after this one among so many, going round.
fn cyclic_place_after(place: usize, count: usize) -> usize
    requires { (place < count) × (count ≤ 256) }
    ensures { result ≡ (place + 1) % count }
{
    if place + 1 == count { 0 } else { place + 1 }
}

// The place that a cursor stands for.
#[inline(always)]
fn place_of_cursor(cursor: usize, count: usize) -> usize
    requires { 0 < count }
    ensures { result ≡ cursor % count }
{
    if cursor < count {
        return cursor;
    }
    cursor % count
}

// The first slot of the link from the core or bank of this number.
#[inline(always)]
fn first_slot_of_link(machine: &Machine, number: u32, slots: &Slots, from: usize) -> usize
    requires number { number < machine.now.set_up.config.cores + machine.now.set_up.config.banks }
    requires slots { AreIncoming machine.now.set_up.config.cores machine.now.set_up.config.banks
        number slots.now }
    requires from { 4 * from < slots.now.count }
    ensures slot { result ≡ incoming machine.now.set_up.config.cores
        machine.now.set_up.config.banks number (4 * from) }
    ensures within { result < 4096 }
{
    slots_are_few(&machine.set_up.config);
    slots.first + from * slots.stride
}

// The first one that is found full of so many slots of a link, and the place after it. The slots begin at this place,
// and come in to the seat. All are looked at if none is full.
#[inline(always)]
fn find_full_in_link(
    machine: &Machine,
    seat: &mut SlotSeat,
    number: u32,
    slots: &Slots,
    place: usize,
    slot: usize,
    looks: usize,
) -> Option<(usize, usize)>
    requires table { seat.old.table_id ≡ machine.now.table.shared.table_id }
    requires number { (number < machine.now.set_up.config.cores + machine.now.set_up.config.banks) ×
        (seat.old.me.0.number ≡ number) }
    requires idle { (seat.old.me.0.spent ≡ false) × (seat.old.me.0.mine.stage ≡ Idle) ×
        (seat.old.me.1 ≡ []) }
    requires slots { AreIncoming machine.now.set_up.config.cores machine.now.set_up.config.banks
        number slots.now }
    requires place { (place < slots.now.count) × (place % 4 + looks ≤ 4) }
    requires slot { slot ≡ incoming machine.now.set_up.config.cores
        machine.now.set_up.config.banks number place }
    ensures table { (seat.new.table_id ≡ seat.old.table_id) × (seat.new.id ≡ seat.old.id) }
    ensures found { MatchOption result
        (FindsNone machine.now.set_up number place looks seat.old.me seat.new.me)
        (λ f. FindsFull machine.now.set_up number place looks f seat.old.me seat.new.me) }
    ensures within { IfSome result (λ f. f.1 < 256) }
{
    slots_are_few(&machine.set_up.config);
    for k in 0..looks {
        if look_at_incoming_slot(&machine.table.shared, seat, slot + k) != 0 {
            let after = cyclic_place_after(place + k, slots.count);
            return Some((slot + k, after));
        }
    }
    None
}

// The same. A cursor mostly stands behind the first slot of a link, so that three slots are left of it, and then one:
// loops of a known length have no counter in the built program.
#[inline(always)]
fn find_full_in_part(
    machine: &Machine,
    seat: &mut SlotSeat,
    number: u32,
    slots: &Slots,
    place: usize,
    slot: usize,
    looks: usize,
) -> Option<(usize, usize)>
    requires table { seat.old.table_id ≡ machine.now.table.shared.table_id }
    requires number { (number < machine.now.set_up.config.cores + machine.now.set_up.config.banks) ×
        (seat.old.me.0.number ≡ number) }
    requires idle { (seat.old.me.0.spent ≡ false) × (seat.old.me.0.mine.stage ≡ Idle) ×
        (seat.old.me.1 ≡ []) }
    requires slots { AreIncoming machine.now.set_up.config.cores machine.now.set_up.config.banks
        number slots.now }
    requires place { (place < slots.now.count) × (place % 4 + looks ≤ 4) }
    requires slot { slot ≡ incoming machine.now.set_up.config.cores
        machine.now.set_up.config.banks number place }
    ensures table { (seat.new.table_id ≡ seat.old.table_id) × (seat.new.id ≡ seat.old.id) }
    ensures found { MatchOption result
        (FindsNone machine.now.set_up number place looks seat.old.me seat.new.me)
        (λ f. FindsFull machine.now.set_up number place looks f seat.old.me seat.new.me) }
    ensures within { IfSome result (λ f. f.1 < 256) }
{
    match looks {
        1 => find_full_in_link(machine, seat, number, slots, place, slot, 1),
        3 => find_full_in_link(machine, seat, number, slots, place, slot, 3),
        _ => find_full_in_link(machine, seat, number, slots, place, slot, looks),
    }
}

// The same of so many links, one after the other.
#[inline(always)]
fn find_full_in_links(
    machine: &Machine,
    seat: &mut SlotSeat,
    number: u32,
    slots: &Slots,
    place: usize,
    slot: usize,
    links: usize,
) -> Option<(usize, usize)>
    requires table { seat.old.table_id ≡ machine.now.table.shared.table_id }
    requires number { (number < machine.now.set_up.config.cores + machine.now.set_up.config.banks) ×
        (seat.old.me.0.number ≡ number) }
    requires idle { (seat.old.me.0.spent ≡ false) × (seat.old.me.0.mine.stage ≡ Idle) ×
        (seat.old.me.1 ≡ []) }
    requires slots { AreIncoming machine.now.set_up.config.cores machine.now.set_up.config.banks
        number slots.now }
    requires place { (place + 4 * links ≤ slots.now.count) × (place % 4 ≡ 0) }
    requires slot { slot ≡ incoming machine.now.set_up.config.cores
        machine.now.set_up.config.banks number place }
    ensures table { (seat.new.table_id ≡ seat.old.table_id) × (seat.new.id ≡ seat.old.id) }
    ensures found { MatchOption result
        (FindsNone machine.now.set_up number place (4 * links) seat.old.me seat.new.me)
        (λ f. FindsFull machine.now.set_up number place (4 * links) f seat.old.me seat.new.me) }
    ensures within { IfSome result (λ f. f.1 < 256) }
{
    slots_are_few(&machine.set_up.config);
    let mut at = slot;
    for n in 0..links {
        if let Some(found) = find_full_in_link(machine, seat, number, slots, place + 4 * n, at, 4) {
            return Some(found);
        }
        at += slots.stride;
    }
    None
}

// The first slot that comes in and is found full, from the cursor on and going round, and the place after it. The slot
// is then out with the seat. All are looked at if none is full.
#[inline(always)]
fn find_full_slot(
    machine: &Machine,
    seat: &mut SlotSeat,
    number: u32,
    slots: &Slots,
    cursor: usize,
) -> Option<(usize, usize)>
    requires table { seat.old.table_id ≡ machine.now.table.shared.table_id }
    requires number { (number < machine.now.set_up.config.cores + machine.now.set_up.config.banks) ×
        (seat.old.me.0.number ≡ number) }
    requires idle { (seat.old.me.0.spent ≡ false) × (seat.old.me.0.mine.stage ≡ Idle) ×
        (seat.old.me.1 ≡ []) }
    requires slots { AreIncoming machine.now.set_up.config.cores machine.now.set_up.config.banks
        number slots.now }
    ensures table { (seat.new.table_id ≡ seat.old.table_id) × (seat.new.id ≡ seat.old.id) }
    ensures found { MatchOption result
        (FindsNone machine.now.set_up number cursor (incoming_count machine.now.set_up.config.cores
        machine.now.set_up.config.banks number) seat.old.me seat.new.me)
        (λ f. FindsFull machine.now.set_up number cursor (incoming_count
        machine.now.set_up.config.cores machine.now.set_up.config.banks number) f seat.old.me
        seat.new.me) }
    ensures within { IfSome result (λ f. f.1 < 256) }
{
    let start = place_of_cursor(cursor, slots.count);
    let column = start % 4;
    let link = start - column;
    let slot = first_slot_of_link(machine, number, slots, start / 4);
    let at = slot + column;
    if let Some(found) = find_full_in_part(machine, seat, number, slots, start, at, 4 - column) {
        return Some(found);
    }
    let later = slots.count / 4 - start / 4 - 1;
    let next = slot + slots.stride;
    if let Some(found) = find_full_in_links(machine, seat, number, slots, link + 4, next, later) {
        return Some(found);
    }
    if let Some(found) = find_full_in_links(
        machine,
        seat,
        number,
        slots,
        0,
        slots.first,
        start / 4,
    ) {
        return Some(found);
    }
    find_full_in_part(machine, seat, number, slots, link, slot, column)
}

// Moves the message out of the slot that is out with the seat into the hand, and gives the slot back empty. It is a
// call of its own, so that a take that finds nothing makes no room for a message.
#[inline(never)]
fn fill_hand(
    machine: &Machine,
    seat: &mut SlotSeat,
    came_in: &mut Inbox<Message>,
    slot: usize,
) -> Take
    requires table { Belongs seat.old.table_id machine.now.table.shared.table_id
        machine.now.table.shared.key }
    requires slot { (slot < slot_count machine.now.table.shared.key) ×
        (seat.old.me.0.spent ≡ false) × (seat.old.me.0.mine.hand ≡ None) × (came_in.old.hand ≡ None) }
    requires reading { (m : Message) × (seat.old.me.0.mine.stage ≡ Reading slot m) ×
        (seat.old.me.1 ≡ (slot, Some m) ∷ []) }
    ensures table { (seat.new.table_id ≡ seat.old.table_id) × (seat.new.id ≡ seat.old.id) }
    ensures taken { (m : Message) × (seat.old.me.0.mine.stage ≡ Reading slot m) × (seat.new.me ≡
        (with_hold seat.old.me.0 (take_hold seat.old.me.0.mine slot m), [])) ×
        (came_in.new ≡ inbox (Some m) came_in.old.held) ×
        Standing machine.now.table.shared.key (seat_count machine.now.table.shared.key)
        seat.old.me.0.number (take_hold seat.old.me.0.mine slot m) }
    ensures answer { result ≡ Take.Taken }
{
    let message = receive_from_slot(&machine.table.shared, seat, slot);
    let _body: Body = message.body;
    came_in.fill_hand(message);
    Take::Taken
}

impl Mailbox {
    /// Takes the message of the first slot that comes in and is found full into the hand, from the cursor on and going
    /// round.
    pub fn take(&mut self, machine: &Machine) -> Take
        requires seat { IsAt machine.now self.old }
        requires stands { Stands machine.now self.old }
        ensures seat { IsAt machine.now self.new × Stays self.old self.new }
        ensures stands { Stands machine.now self.new }
        ensures outbox { (hold self.new).outbox ≡ (hold self.old).outbox }
        ensures taken { Takes machine.now.set_up result self.old self.new }
    {
        if self.inbox.hand().is_some() {
            return Take::HandFull;
        }
        seats_stand();
        let found = find_full_slot(
            machine,
            &mut self.seat,
            self.number,
            &self.slots,
            self.cursor,
        );
        let Some((slot, after)) = found else {
            return Take::Nothing;
        };
        self.cursor = after;
        fill_hand(machine, &mut self.seat, &mut self.inbox, slot)
    }
}
