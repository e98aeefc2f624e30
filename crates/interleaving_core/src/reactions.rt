//! A message in flight is delivered to its part.
ghost use Rattle.std.specs.Prelude.{◌≡◌, ◌<◌, ◌||◌, ℕ, false, IfOk, IfSome, IsSome, IsTrue, OnErr, Some};
ghost use Rattle.network.specs.Flight.{IsWithMail, SameNetwork};
ghost use Rattle.network.specs.Mail.{Mail, answered, has_capacity, has_number, sent, taken};
ghost use Rattle.network.specs.NumberedMessages.{at_number};
ghost use Rattle.network.specs.Routes.{has_endpoints};
ghost use Rattle.network.specs.Sends.{sent_by, sent_in};
ghost use Rattle.machine_table.specs.Posted.{can_send};
ghost use Rattle.machine_table.specs.Step.{Stays, reacted};
ghost use Rattle.interleaving_core.specs.PartChanges.{answer_of, applied, settled_answer, stops};
ghost use Rattle.interleaving_core.specs.Endpoints.{ReactionHasEndpoints, SendsWithEndpoints};

use crate::plain_answer::PlainAnswer;
use machine_table::Refusal;
use network::{InFlight, Message, MsgNo, Node, Part, PartError, Reaction};
use std::alloc::AllocError;

/// A message in flight is delivered to its part: the answer, and the part and the messages in flight afterwards.
/// Exhausted times stop the machine. An error leaves all as it was. The compiler sets what a function keeps on its
/// stack to zeros where that begins, also where it is inlined: so a delivery does so for the response of one part
/// alone.
pub(crate) fn deliver_to_part<P: Part>(
    part: &mut P,
    flight: &mut InFlight,
    is_stopped: &mut bool,
    number: MsgNo,
) -> Result<PlainAnswer, AllocError>
    requires there { IsSome (at_number number flight.old.mail.messages) }
    requires case { IfSome (at_number number flight.old.mail.messages) (λ message.
        IsTrue (P.has_case part.old message)) }
    requires quiet { IfSome (at_number number flight.old.mail.messages) (λ message.
        Stays part.old (P.table part.old message)) }
    requires endpoints { IfSome (at_number number flight.old.mail.messages) (λ message.
        IsTrue (can_send flight.old.capacity flight.old.mail (sent_by (P.table part.old message))) →
        ReactionHasEndpoints flight.old.cores flight.old.banks (P.table part.old message)) }
    ensures done { IfOk result (λ plain. IfSome (at_number number flight.old.mail.messages)
        (λ message. (answer_of plain, part.new, flight.new.mail) ≡ applied flight.old.capacity
        part.old flight.old.mail (Some number) (reacted (P.table part.old message)))) }
    ensures stop { IfOk result (λ plain.
        is_stopped.new ≡ (stops (answer_of plain) || is_stopped.old)) }
    ensures set_up { SameNetwork flight.old flight.new }
    ensures memory { OnErr result (IfSome (at_number number flight.old.mail.messages)
        (λ message. flight.old.mail.next < (applied flight.old.capacity part.old flight.old.mail
        (Some number) (reacted (P.table part.old message))).2.next)) }
    ensures sure { OnErr result (IfSome (at_number number flight.old.mail.messages) (λ message.
        IsTrue (P.takes_memory part.old message))) }
    ensures refused { OnErr result ((part.new ≡ part.old) × (flight.new ≡ flight.old)
        × (is_stopped.new ≡ is_stopped.old)) }
{
    let Some(message) = flight.look(number) else {
        unreachable!()
    };
    if !can_send_reaction(part, flight, message) {
        return Ok(PlainAnswer::Refused(Refusal::NetworkFull));
    }
    match part.deliver(message) {
        Err(PartError::NoMemory) => Err(AllocError),
        Err(PartError::Exhausted) => {
            *is_stopped = true;
            Ok(PlainAnswer::Refused(Refusal::Exhausted))
        }
        Ok(reaction) => {
            let delivery = answer_of_reaction(&reaction);
            apply_reaction_to_flight(flight, number, reaction);
            Ok(delivery)
        }
    }
}

// Whether what a part would send can be sent. Where one more message can be sent, the part isn't asked what it would.
#[inline(always)]
fn can_send_reaction<P: Part>(part: &P, flight: &InFlight, message: &Message) -> bool
    requires { IsTrue (P.has_case part.now message.now) }
    ensures { result ≡ can_send flight.now.capacity flight.now.mail
        (sent_by (P.table part.now message.now)) }
{
    if flight.has_capacity() {
        return true;
    }
    can_send(flight, part.sends(message))
}

// Whether what a part would send can be sent: an answer takes the place of the delivered message.
#[inline(always)]
fn can_send(flight: &InFlight, sends: Option<(Node, bool)>) -> bool
    ensures { result ≡ can_send flight.now.capacity flight.now.mail sends }
{
    match sends {
        None => true,
        Some((_, true)) => flight.has_capacity(),
        Some((_, false)) => flight.has_number(),
    }
}

// What a reaction to a delivered message is answered. It stops no machine.
#[inline(always)]
fn answer_of_reaction(reaction: &Reaction) -> PlainAnswer
    ensures answer { (mail : Mail) (n : ℕ) →
        answer_of result ≡ (settled_answer mail n reaction.now).0 }
    ensures goes_on { stops (answer_of result) ≡ false }
{
    match reaction {
        Reaction::Held => PlainAnswer::Held,
        Reaction::Dropped => PlainAnswer::Dropped,
        Reaction::Done(_) => PlainAnswer::Delivered,
        Reaction::HeldAfter(_) => PlainAnswer::Started,
    }
}

// What becomes of the messages in flight after a reaction to a delivered one. A message that stays is looked up soon.
#[inline(always)]
fn apply_reaction_to_flight(flight: &mut InFlight, number: MsgNo, reaction: Reaction)
    requires there { IsSome (at_number number flight.old.mail.messages) }
    requires endpoints { SendsWithEndpoints flight.old.cores flight.old.banks reaction }
    requires capacity { IsTrue (can_send flight.old.capacity flight.old.mail (sent_in reaction)) }
    ensures mail { flight.new.mail ≡ (settled_answer flight.old.mail number reaction).1 }
    ensures set_up { SameNetwork flight.old flight.new }
{
    match reaction {
        Reaction::Held => flight.seek(number),
        Reaction::Dropped => take_message(flight, number),
        Reaction::Done(None) => take_message(flight, number),
        Reaction::Done(Some(reply)) => send_in_its_place(flight, number, reply),
        Reaction::HeldAfter(started) => {
            send_message(flight, started);
            flight.seek(number);
        }
    }
}

/// Sends a message for which there is capacity.
#[inline(always)]
pub(crate) fn send_message(flight: &mut InFlight, message: Message)
    requires endpoints { IsTrue (has_endpoints flight.old.cores flight.old.banks message) }
    requires capacity { IsTrue (has_capacity flight.old.capacity flight.old.mail) }
    ensures { IsWithMail (sent flight.old.mail message) flight.old flight.new }
{
    match flight.send(message) {
        Ok(_) => (),
        Err(_) => unreachable!(),
    }
}

/// Takes a message that is in flight.
#[inline(always)]
pub(crate) fn take_message(flight: &mut InFlight, number: MsgNo)
    ensures { IsWithMail (taken flight.old.mail number) flight.old flight.new }
{
    let _there = flight.remove(number);
}

// Takes a message that is in flight, and sends another in its place.
#[inline(always)]
fn send_in_its_place(flight: &mut InFlight, number: MsgNo, message: Message)
    requires there { IsSome (at_number number flight.old.mail.messages) }
    requires endpoints { IsTrue (has_endpoints flight.old.cores flight.old.banks message) }
    requires number { IsTrue (has_number flight.old.mail) }
    ensures { IsWithMail (answered flight.old.mail number message) flight.old flight.new }
{
    let _number = flight.answer(number, message);
}
