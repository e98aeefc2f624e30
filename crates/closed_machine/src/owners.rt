//! Who owns a line in a closed machine.
ghost use Rattle.std.specs.Prelude.{◌≡◌, ◌+◌, ◌*◌, ◌≤◌, ◌<◌, option_copied, option_to_list};
ghost use Rattle.private_cache.specs.CopyTable.{copy_of};
ghost use Rattle.machine_theorem.specs.Bags.{weigh};
ghost use Rattle.machine_theorem.specs.Coherence.{owner_in};
ghost use Rattle.machine_theorem.specs.Ownership.{owners, ownership_in};
ghost use Rattle.seat_views.specs.Seated.{over};
ghost use Rattle.seat_rule.specs.Rule.{bag_of_hold, content, seat_count, slot_count};
ghost use Rattle.closed_machine.specs.RunParts.{Parts, state_of_run};
ghost use Rattle.closed_machine.specs.RunSums.{messages_left};

use crate::numbered::find_by_number;
use crate::outbox::Outbox;
use crate::run::Run;
use core_pts::Core;
use inbox::Inbox;
use network::{LineNo, Message};
use private_cache::CopyState;
use seat_rule::laws::{owners_are_added_up, seats_are_few, slots_are_few};

impl Run {
    /// How many own a line: the Exclusive copies of it in caches, and the grants and returns of it in flight, with the
    /// seats and in the slots. At most one does.
    pub fn owners(&self, line: LineNo) -> u32
        requires { Parts self.now }
        ensures owners { (parts : Parts self.now) → result ≡
            owners self.now.set_up.config (state_of_run self.now parts) line }
        ensures one { result ≤ 1 }
    {
        owners_are_added_up();
        self.exclusive_copies(line) + self.grants_with_seats(line) + self.grants_in_slots(line)
    }

    // How many cores have an Exclusive copy of a line.
    fn exclusive_copies(&self, line: LineNo) -> u32
        requires { Parts self.now }
        ensures copies { (parts : Parts self.now) → result ≡ over self.now.set_up.config.cores
            (λ c. owner_in (copy_of (parts.seats c).core.cache line)) }
        ensures within { result ≤ 64 }
    {
        let mut count = 0;
        for core in 0..self.set_up.config.cores {
            let at = find_by_number(self.cores.as_slice(), core);
            count += exclusive_copies_in_core(&self.cores[at].core, line);
        }
        count
    }

    // How many grants and returns of a line are with the seats.
    fn grants_with_seats(&self, line: LineNo) -> u32
        requires { Parts self.now }
        ensures grants { (parts : Parts self.now) → result ≡ over (seat_count self.now.set_up)
            (λ j. weigh (ownership_in line) (bag_of_hold (parts.seats j))) }
        ensures within { result ≤ 513 * 72 }
    {
        seats_are_few();
        let seats = self.set_up.config.cores + self.set_up.config.banks;
        let mut count = 0;
        for number in 0..seats {
            let (outbox, inbox) = self.mail(number);
            count += grants_in_mail(outbox, inbox, line);
        }
        count
    }

    // How many grants and returns of a line lie in slots.
    fn grants_in_slots(&self, line: LineNo) -> u32
        requires { Parts self.now }
        ensures grants { (parts : Parts self.now) → result ≡ over (slot_count self.now.set_up)
            (λ k. weigh (ownership_in line) (content (parts.phases k))) }
        ensures within { result ≤ 4096 }
    {
        slots_are_few(&self.set_up.config);
        let slots = 8 * self.set_up.config.cores * self.set_up.config.banks;
        let mut count = 0;
        for slot in 0..slots {
            count += grants_in_message(self.slots[slot as usize].as_ref(), line);
        }
        count
    }
}

// 1 if the core has an Exclusive copy of a line.
fn exclusive_copies_in_core(core: &Core, line: LineNo) -> u32
    ensures value { result ≡ owner_in (copy_of core.now.cache line) }
    ensures one { result ≤ 1 }
{
    match core.copy(line) {
        Some(copy) if matches!(copy.state, CopyState::Exclusive) => 1,
        _ => 0,
    }
}

// How many grants and returns of a line a seat left.
fn grants_in_mail(outbox: &Outbox, inbox: &Inbox<Message>, line: LineNo) -> u32
    ensures value { result ≡ weigh (ownership_in line) (messages_left outbox.now inbox.now) }
    ensures within { result ≤ 513 }
{
    outbox.grants(line) + grants_in_message(inbox.hand(), line) + grants_in_held_list(inbox, line)
}

// How many of the held messages are grants and returns of a line.
fn grants_in_held_list(inbox: &Inbox<Message>, line: LineNo) -> u32
    ensures value { result ≡ weigh (ownership_in line) inbox.now.held }
    ensures within { result ≤ 256 }
{
    let mut count = 0;
    for at in 0..256 - inbox.places() {
        count += grants_in_message(inbox.held(at), line);
    }
    count
}

// 1 if there is a message, and it is a grant or a return of a line.
pub(crate) fn grants_in_message(message: Option<&Message>, line: LineNo) -> u32
    ensures value { result ≡ weigh (ownership_in line) (option_to_list (option_copied message.entry)) }
    ensures one { result ≤ 1 }
{
    match message {
        Some(message) if message.line.0 == line.0 && message.body.carries_ownership() => 1,
        _ => 0,
    }
}
