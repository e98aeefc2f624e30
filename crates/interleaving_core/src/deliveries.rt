//! The delivery of a message in a machine's parts.
ghost use Rattle.std.specs.Prelude.{◌≡◌, ◌<◌, ◌&&◌, ◌||◌, ℕ, List, None, Some, false, is_some, unwrap_or};
ghost use Rattle.std.specs.Prelude.{IfOk, IfSome, IsSome, IsTrue, OnErr, slice_get, slice_set};
ghost use Rattle.network.specs.declared.part.Reaction.TheVariants.{Held};
ghost use Rattle.network.specs.Flight.{SameNetwork};
ghost use Rattle.network.specs.NumberedMessages.{at_number};
ghost use Rattle.network.specs.Sends.{sent_by};
ghost use Rattle.core_pts.specs.CoreTable.{CoreState, core_has_case, core_table};
ghost use Rattle.llc_bank.specs.BankTable.{bank_has_case, bank_table, entry_of};
ghost use Rattle.machine_table.specs.declared.event.Event.TheVariants.{Deliver};
ghost use Rattle.machine_table.specs.Machine.{Machine};
ghost use Rattle.machine_table.specs.Posted.{can_send};
ghost use Rattle.machine_table.specs.Step.{Stays, reacted};
ghost use Rattle.machine_table.specs.Transition.{on_event};
ghost use Rattle.interleaving_core.specs.CoreMasks.{AreMasks};
ghost use Rattle.interleaving_core.specs.Endpoints.{ReactionHasEndpoints};
ghost use Rattle.interleaving_core.specs.LookUps.{is_request, is_under_way, make_room, message_waits};
ghost use Rattle.interleaving_core.specs.PartChanges.{answer_of, applied, stops};
ghost use Rattle.interleaving_core.specs.PartsInMemory.{ArePartsOf, with_parts};
ghost use Rattle.interleaving_core.specs.Reservation.{IsFitted};
ghost use Rattle.interleaving_core.specs.StepAnswers.{TakesMemory, asks_memory};

use crate::core_masks::{CoreMasks, update_masks_after_delivery};
use crate::plain_answer::PlainAnswer;
use crate::reactions::{deliver_to_part, take_message};
use core_pts::Core;
use dram_mts::Dram;
use llc_bank::{Bank, Entry};
use machine_table::Refusal;
use network::{Body, InFlight, Message, MsgNo, Node};
use std::alloc::AllocError;

// Whether a message is a request that its bank holds and does nothing for; if so, whether that is for the line's sake,
// which is being loaded, recalled or stored: then no line need leave for it. Else the line's set has no room.
#[inline(always)]
fn held_request_awaits_line(bank: &Bank, message: &Message) -> Option<bool>
    ensures value { unwrap_or result false ≡ (is_request message.now.body &&
        is_under_way (entry_of bank.now message.now.line)) }
    ensures held { IsSome result → bank_table bank.now message.now ≡ Some (Held, bank.now) }
    ensures there { IfSome result (λ waits. IsTrue waits →
        IsTrue (is_some (entry_of bank.now message.now.line))) }
{
    match message.body {
        Body::ShReq { .. } | Body::ExReq { .. } => match bank.entry(message.line) {
            Some(Entry::Loading | Entry::Recalling { .. } | Entry::Storing) => Some(true),
            Some(Entry::Shared { .. } | Entry::Exclusive { .. }) => None,
            None => if bank.has_room(message.line) {
                None
            } else {
                Some(false)
            },
        },
        _ => None,
    }
}

// A message in flight is delivered to its bank. A bank takes no memory for it.
fn deliver_to_bank(
    bank: &mut Bank,
    flight: &mut InFlight,
    is_stopped: &mut bool,
    number: MsgNo,
) -> PlainAnswer
    requires there { IsSome (at_number number flight.old.mail.messages) }
    requires case { IfSome (at_number number flight.old.mail.messages) (λ message.
        IsTrue (bank_has_case bank.old message)) }
    requires quiet { IfSome (at_number number flight.old.mail.messages) (λ message.
        Stays bank.old (bank_table bank.old message)) }
    requires endpoints { IfSome (at_number number flight.old.mail.messages) (λ message.
        IsTrue (can_send flight.old.capacity flight.old.mail (sent_by (bank_table bank.old message))) →
        ReactionHasEndpoints flight.old.cores flight.old.banks (bank_table bank.old message)) }
    ensures done { IfSome (at_number number flight.old.mail.messages)
        (λ message. (answer_of result, bank.new, flight.new.mail) ≡ applied flight.old.capacity
        bank.old flight.old.mail (Some number) (reacted (bank_table bank.old message))) }
    ensures stop { is_stopped.new ≡ (stops (answer_of result) || is_stopped.old) }
    ensures set_up { SameNetwork flight.old flight.new }
{
    let Some(message) = flight.look(number) else {
        unreachable!()
    };
    if Bank::is_reply(&message.body) {
        bank.take_reply(message);
        take_message(flight, number);
        return PlainAnswer::Delivered;
    }
    match deliver_to_part(bank, flight, is_stopped, number) {
        Ok(plain) => plain,
        Err(AllocError) => unreachable!(),
    }
}

// A message in flight is delivered to its core, and how that stands is noted. A core takes no memory for it.
fn deliver_to_core(
    core: &mut Core,
    flight: &mut InFlight,
    masks: &mut CoreMasks,
    is_stopped: &mut bool,
    number_of_core: u32,
    number: MsgNo,
) -> PlainAnswer
    requires few { number_of_core < 64 }
    requires there { IsSome (at_number number flight.old.mail.messages) }
    requires case { IfSome (at_number number flight.old.mail.messages) (λ message.
        IsTrue (core_has_case core.old message)) }
    requires quiet { IfSome (at_number number flight.old.mail.messages) (λ message.
        Stays core.old (core_table core.old message)) }
    requires endpoints { IfSome (at_number number flight.old.mail.messages) (λ message.
        IsTrue (can_send flight.old.capacity flight.old.mail (sent_by (core_table core.old message))) →
        ReactionHasEndpoints flight.old.cores flight.old.banks (core_table core.old message)) }
    ensures done { IfSome (at_number number flight.old.mail.messages)
        (λ message. (answer_of result, core.new, flight.new.mail) ≡ applied flight.old.capacity
        core.old flight.old.mail (Some number) (reacted (core_table core.old message))) }
    ensures stop { is_stopped.new ≡ (stops (answer_of result) || is_stopped.old) }
    ensures set_up { SameNetwork flight.old flight.new }
    ensures masked { (cores : List CoreState) → slice_get cores number_of_core ≡ Some core.old →
        core.new.open_op ≡ core.old.open_op → AreMasks masks.old cores →
        AreMasks masks.new (slice_set cores number_of_core core.new) }
{
    let Some(message) = flight.look(number) else {
        unreachable!()
    };
    if Core::is_reply(&message.body) {
        core.take_reply(message);
        take_message(flight, number);
        update_masks_after_delivery(masks, number_of_core, core);
        return PlainAnswer::Delivered;
    }
    match deliver_to_part(core, flight, is_stopped, number) {
        Ok(plain) => {
            update_masks_after_delivery(masks, number_of_core, core);
            plain
        }
        Err(AllocError) => unreachable!(),
    }
}

/// A message in flight is delivered: what the table answers, and what it makes of the parts. An error leaves all as it
/// was. Where `waits` is set the message is held, and no line need leave for it. What this calls takes the part alone,
/// so that a program has it once: of what is generic over the history each crate that names a machine has its own copy.
#[inline(always)]
pub(crate) fn deliver_message(
    flight: &mut InFlight,
    number: MsgNo,
    cores: &mut Vec<Core>,
    banks: &mut Vec<Bank>,
    drams: &mut Vec<Dram>,
    masks: &mut CoreMasks,
    is_stopped: &mut bool,
    waits: &mut bool,
) -> Result<PlainAnswer, AllocError>
    requires not_yet { waits.old ≡ false }
    requires parts { (m : Machine) × (room : ℕ) × ArePartsOf m room cores.old.items banks.old.items
        drams.old.items flight.old masks.old is_stopped.old }
    ensures done { (m : Machine) (room : ℕ) → ArePartsOf m room cores.old.items banks.old.items
        drams.old.items flight.old masks.old is_stopped.old → IfOk result (λ plain. (
          answer_of plain,
          with_parts m cores.new.items banks.new.items drams.new.items
              flight.new.mail is_stopped.new,
        ) ≡ on_event m (Deliver number)) }
    ensures fitted { (m : Machine) (room : ℕ) → ArePartsOf m room cores.old.items
        banks.old.items drams.old.items flight.old masks.old is_stopped.old →
        IsFitted m.config flight.new cores.new.items m.records room masks.new }
    ensures waits { (m : Machine) (room : ℕ) → ArePartsOf m room cores.old.items banks.old.items
        drams.old.items flight.old masks.old is_stopped.old → waits.new ≡ message_waits m number }
    ensures told { (m : Machine) (room : ℕ) → ArePartsOf m room cores.old.items
        banks.old.items drams.old.items flight.old masks.old is_stopped.old → IsTrue waits.new →
        make_room (with_parts m cores.new.items banks.new.items drams.new.items
        flight.new.mail is_stopped.new) number ≡ None }
    ensures refused { OnErr result ((cores.new.items ≡ cores.old.items)
        × (banks.new.items ≡ banks.old.items) × (drams.new.items ≡ drams.old.items)
        × (flight.new ≡ flight.old) × (is_stopped.new ≡ is_stopped.old)) }
    ensures wanted { (m : Machine) (room : ℕ) → ArePartsOf m room cores.old.items
        banks.old.items drams.old.items flight.old masks.old is_stopped.old →
        OnErr result (TakesMemory m (on_event m (Deliver number))) }
    ensures store { (m : Machine) (room : ℕ) → ArePartsOf m room cores.old.items
        banks.old.items drams.old.items flight.old masks.old is_stopped.old →
        OnErr result (IsTrue (asks_memory m (Deliver number))) }
{
    let Some(message) = flight.look(number) else {
        return Ok(PlainAnswer::Refused(Refusal::NoSuch));
    };
    match message.to {
        Node::Core(number_of_core) => {
            let core = &mut cores[number_of_core as usize];
            Ok(deliver_to_core(core, flight, masks, is_stopped, number_of_core, number))
        }
        Node::Bank(bank) => {
            let bank = &mut banks[bank as usize];
            if let Some(is_waiting) = held_request_awaits_line(bank, message) {
                *waits = is_waiting;
                flight.seek(number);
                return Ok(PlainAnswer::Held);
            }
            Ok(deliver_to_bank(bank, flight, is_stopped, number))
        }
        Node::Dram(bank) => {
            let dram = &mut drams[bank as usize];
            deliver_to_part(dram, flight, is_stopped, number)
        }
    }
}
