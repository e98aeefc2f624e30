//! A core, a bank or a DRAM answers messages, and its seat sends what it answers.
ghost use Rattle.std.specs.Prelude.{◌≡◌, ℕ, Bool, ◌≤◌, ◌⊎◌, IsTrue, true, false, Option, Some, None, Err, is_some, []};
ghost use Rattle.network.specs.Sends.{sent_by, sent_in};
ghost use Rattle.network.specs.declared.message.Node.{Node};
ghost use Rattle.inbox.specs.Inboxes.{inbox};
ghost use Rattle.inbox.specs.declared.answer.Refusal.TheVariants.{NoMemory};
ghost use Rattle.inbox.specs.Effects.{Effect, LeavesPart, NeverNoMemory};
ghost use Rattle.inbox.specs.Serving.{HaveCases, Serves, WantsMemory, is_quiet, needs, order_of};
ghost use Rattle.mailboxes.specs.PartServing.{Reacts, reaction_answer, finds_places, leaves, places_for, posted};
ghost use Rattle.mailboxes.specs.PartServing.{told};
ghost use Rattle.mailboxes.specs.SeatServing.{may_change};

use closed_machine::Outbox;
use inbox::laws::{memory_is_wanted_for_the_served, servings_do_one_of_five};
use inbox::{Answer, Inbox, Receiver, Refusal, Served};
use network::{Message, Node, Part, PartError, Reaction};

// Whether a message of the seat's part leaves the seat.
fn leaves_seat(is_core: bool, to: &Node) -> bool
    ensures { result ≡ leaves is_core to.now }
{
    is_core || matches!(to, Node::Core(_))
}

// How many places of the held list are wanted.
fn held_places_wanted(stays: bool, leaves: bool) -> u32
    ensures { result ≡ places_for stays leaves }
{
    match (stays, leaves) {
        (true, true) => 1,
        (true, false) => 2,
        (false, true) => 0,
        (false, false) => 1,
    }
}

/// Whether what would be sent, if anything, and the delivered message find their places.
pub(crate) fn sending_finds_places(
    is_core: bool,
    outbox: &Outbox,
    places: u32,
    sends: &Option<(Node, bool)>,
) -> bool
    ensures { result ≡ finds_places is_core outbox.now places sends.now }
{
    match sends {
        None => true,
        Some((to, stays)) => {
            let leaves = leaves_seat(is_core, to);
            let can_go = if leaves {
                outbox.can_send_out()
            } else {
                outbox.can_send()
            };
            can_go && held_places_wanted(*stays, leaves) <= places
        }
    }
}

/// Sends a message: one that leaves goes to the outbox, and the answer has any other.
pub(crate) fn post_message(is_core: bool, outbox: &mut Outbox, message: &Message) -> Option<Message>
    requires { (places : ℕ) × (stays : Bool) ×
        IsTrue (finds_places is_core outbox.old places (Some (message.now.to, stays))) }
    ensures told { result ≡ told is_core message.now }
    ensures posted { outbox.new ≡ posted is_core outbox.old message.now }
{
    if leaves_seat(is_core, &message.to) {
        outbox.send(*message);
        return None;
    }
    outbox.count_sent_to_held(message);
    Some(*message)
}

// Sends what a part sends, if anything, and answers what it did.
#[inline(always)]
fn send_reaction(is_core: bool, outbox: &mut Outbox, reaction: &Reaction) -> Answer<Message>
    requires { (places : ℕ) × IsTrue (finds_places is_core outbox.old places (sent_in reaction.now)) }
    ensures answer { result ≡ (reaction_answer is_core outbox.old reaction.now).0 }
    ensures sent { outbox.new ≡ (reaction_answer is_core outbox.old reaction.now).1 }
{
    match reaction {
        Reaction::Done(None) => Answer::Delivered(None),
        Reaction::Done(Some(sent)) => Answer::Delivered(post_message(is_core, outbox, sent)),
        Reaction::Dropped => Answer::Dropped,
        Reaction::Held => Answer::Held,
        Reaction::HeldAfter(sent) => Answer::Started(post_message(is_core, outbox, sent)),
    }
}

// Whether anything that a part may send, and the delivered message, find places: two of the held list are enough.
fn outbox_is_roomy(outbox: &Outbox, places: u32) -> bool
    ensures { result ≡ true → (is_core : Bool) (sends : Option (Node × Bool)) →
        finds_places is_core outbox.now places sends ≡ true }
{
    places >= 2 && outbox.can_send_out()
}

// Whether what a part would send, if anything, and the delivered message find their places. The part is asked only if
// not all would.
fn reaction_finds_room<P: Part>(
    is_core: bool,
    part: &P,
    outbox: &Outbox,
    message: &Message,
    places: u32,
) -> bool
    requires { IsTrue (P.has_case part.now message.now) }
    ensures { result ≡ finds_places is_core outbox.now places (sent_by (P.table part.now message.now)) }
{
    if outbox_is_roomy(outbox, places) {
        return true;
    }
    sending_finds_places(is_core, outbox, places, &part.sends(message))
}

/// Hands a message to the part, if all that it would send finds a place, and sends that.
pub(crate) fn deliver_if_room<P: Part>(
    is_core: bool,
    part: &mut P,
    outbox: &mut Outbox,
    message: &Message,
    places: u32,
) -> Answer<Message>
    requires { IsTrue (P.has_case part.old message.now) }
    ensures answer { Reacts is_core (P.takes_memory part.old message.now) outbox.old places
        part.old (P.table part.old message.now) result part.new outbox.new }
    ensures fits { (result ≡ Answer.Held) ⊎ (needs result ≤ places) }
{
    if !reaction_finds_room(is_core, part, outbox, message, places) {
        return Answer::Refused(Refusal::Full);
    }
    match part.deliver(message) {
        Ok(reaction) => send_reaction(is_core, outbox, &reaction),
        Err(PartError::Exhausted) => Answer::Refused(Refusal::Exhausted),
        Err(PartError::NoMemory) => Answer::Refused(Refusal::NoMemory),
    }
}

// Whether no message came in that isn't served.
#[inline(always)]
fn inbox_is_empty(came_in: &Inbox<Message>) -> bool
    ensures { result ≡ true → came_in.now ≡ inbox None [] }
{
    came_in.hand().is_none() && came_in.places() == 256
}

/// Serves a message by the seat's part.
#[inline(always)]
pub(crate) fn serve_part<P: Receiver<Message>>(
    came_in: &mut Inbox<Message>,
    part: &mut P,
) -> Result<Served, Refusal>
    requires cases { HaveCases P.has_case came_in.old part.old }
    requires quiet { LeavesPart P.table }
    requires never { NeverNoMemory P.table }
    ensures served { Serves P.table P.takes_memory came_in.old part.old result came_in.new part.new }
    ensures effect { Effect P.table came_in.old part.old result came_in.new part.new }
    ensures same { may_change (is_some came_in.old.hand) result ≡ false →
        (came_in.new ≡ came_in.old) × (part.new ≡ part.old) }
    ensures memory { result ≡ Err NoMemory → WantsMemory P.table P.takes_memory came_in.old.held
        part.old (order_of came_in.old.hand came_in.old.held) }
{
    if inbox_is_empty(came_in) {
        return Ok(Served::Nothing);
    }
    serve_nonempty_inbox(came_in, part)
}

// The same, by a call of its own: most servings find no message.
#[inline(never)]
fn serve_nonempty_inbox<P: Receiver<Message>>(
    came_in: &mut Inbox<Message>,
    part: &mut P,
) -> Result<Served, Refusal>
    requires cases { HaveCases P.has_case came_in.old part.old }
    requires quiet { LeavesPart P.table }
    requires never { NeverNoMemory P.table }
    ensures served { Serves P.table P.takes_memory came_in.old part.old result came_in.new part.new }
    ensures effect { Effect P.table came_in.old part.old result came_in.new part.new }
    ensures same { may_change (is_some came_in.old.hand) result ≡ false →
        (came_in.new ≡ came_in.old) × (part.new ≡ part.old) }
    ensures memory { result ≡ Err NoMemory → WantsMemory P.table P.takes_memory came_in.old.held
        part.old (order_of came_in.old.hand came_in.old.held) }
{
    servings_do_one_of_five::<Message, P>();
    memory_is_wanted_for_the_served::<Message, P>();
    came_in.serve(part)
}
