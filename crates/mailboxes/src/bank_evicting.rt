//! A bank evicts a line, and its seat sends the message that the eviction needs.
ghost use Rattle.std.specs.Prelude.{◌≡◌, ◌-◌, ◌++◌, false, IsTrue, OnOk, Ok, Err, Some, length};
ghost use Rattle.llc_bank.specs.declared.entry.Evict.{Evict};
ghost use Rattle.machine_table.specs.declared.event.Refusal.{Refusal};
ghost use Rattle.llc_bank.specs.BankTable.{evict};
ghost use Rattle.inbox.specs.Inboxes.{inbox};
ghost use Rattle.inbox.specs.Serving.{sent_list};
ghost use Rattle.mailboxes.specs.BankCalls.{became, bank_evict_answer, evicted_inbox, evicted_part, eviction_fits};
ghost use Rattle.mailboxes.specs.BankCalls.{to_post};
ghost use Rattle.mailboxes.specs.PartServing.{finds_places, posted, told};

use crate::part_serving::{post_message, sending_finds_places};
use crate::sending::SendingBank;
use closed_machine::Outbox;
use inbox::Inbox;
use llc_bank::{Evict, EvictError};
use machine_table::Refusal;
use network::{Body, LineNo, Message, Node};

/// What an eviction did.
#[derive(Clone, Copy, Debug, PartialEq, Eq)]
pub enum Eviction {
    /// The line is gone, or it is on its way to DRAM.
    Evicted,
    /// The bank asks the owner to return the line; the line stays.
    Recalled,
}

// The node that a message would be sent to, and that no delivered message stays.
fn to_post(to: Option<Node>) -> Option<(Node, bool)>
    ensures { result ≡ to_post to }
{
    match to {
        None => None,
        Some(node) => Some((node, false)),
    }
}

/// Whether a line can be evicted: the bank's table does it, and what it sends finds its place.
pub(crate) fn check_line_evictable(
    part: &SendingBank,
    came_in: &Inbox<Message>,
    line: LineNo,
) -> Result<(), Refusal>
    ensures done { OnOk result ((e : Evict) × ((evict part.now.bank line).0 ≡ Ok e) ×
        IsTrue (eviction_fits part.now.outbox came_in.now.held e)) }
    ensures refused { (refusal : Refusal) → result ≡ Err refusal →
        bank_evict_answer false part.now.outbox came_in.now.held (evict part.now.bank line).0
        ≡ Err refusal }
{
    match part.bank.evicts(line) {
        Err(EvictError::NotHere) => Err(Refusal::NoSuch),
        Err(EvictError::Busy) => Err(Refusal::Busy),
        Ok(to) => {
            if sending_finds_places(false, &part.outbox, came_in.places(), &to_post(to)) {
                Ok(())
            } else {
                Err(Refusal::NetworkFull)
            }
        }
    }
}

// Sends a message: to the outbox, or to the end of the held list.
fn send_for_eviction(outbox: &mut Outbox, came_in: &mut Inbox<Message>, message: Message)
    requires { IsTrue (finds_places false outbox.old (256 - length came_in.old.held)
        (Some (message.to, false))) }
    ensures sent { outbox.new ≡ posted false outbox.old message }
    ensures told { came_in.new ≡
        inbox came_in.old.hand (came_in.old.held ++ sent_list (told false message)) }
{
    let _body: Body = message.body;
    if let Some(told) = post_message(false, outbox, &message) {
        came_in.hold(told);
    }
}

/// Evicts a line, which can be evicted, and sends the message that the eviction needs.
pub(crate) fn evict_line(
    part: &mut SendingBank,
    came_in: &mut Inbox<Message>,
    line: LineNo,
) -> Eviction
    requires { (e : Evict) × ((evict part.old.bank line).0 ≡ Ok e) ×
        IsTrue (eviction_fits part.old.outbox came_in.old.held e) }
    ensures { (e : Evict) × ((evict part.old.bank line).0 ≡ Ok e) × (result ≡ became e) ×
        (part.new ≡ evicted_part part.old (evict part.old.bank line).1 e) ×
        (came_in.new ≡ evicted_inbox came_in.old e) }
{
    let _body: Option<Body> = None;
    let evicted = part.bank.evict(line);
    match evicted.unwrap() {
        Evict::Clean => Eviction::Evicted,
        Evict::Stored(store) => {
            send_for_eviction(&mut part.outbox, came_in, store);
            Eviction::Evicted
        }
        Evict::Recalled(recall) => {
            send_for_eviction(&mut part.outbox, came_in, recall);
            Eviction::Recalled
        }
    }
}
