//! A seat puts its messages into slots.
ghost use Rattle.std.specs.Prelude.{◌≡◌, ◌<◌, ℕ, false, true, Some, slice_get};
ghost use Rattle.network.specs.declared.message.Message.{Message};
ghost use Rattle.seat_rule.specs.Rule.{target, node_of};
ghost use Rattle.inbox.specs.Queues.{IsAfter, IsIn, values_of};
ghost use Rattle.mailboxes.specs.Places.{AllLinked, StartsAt, end_of, has_link_to, link_to};
ghost use Rattle.mailboxes.specs.BoxMoves.{IsAt, Stands, Stays, PutAt, Puts, hold};

use crate::ends::{link_end_number, link_number_to};
use crate::links::find_free_slot;
use crate::machine::Machine;
use crate::mailbox::Mailbox;
use crate::steps::send_into_slot;
use inbox::Queue;
use line_arena::Cell;
use network::Message;
use seat_rule::laws::slots_are_few;
use seat_rule::parts::seats_stand;

impl Mailbox {
    /// Puts the oldest message of the outbox whose link has a free slot, into the first one that is found free; false
    /// if there is no such message. A link whose four slots were found full is passed over for younger messages, so
    /// messages of one link go out in their order, and no slot is looked at twice.
    #[inline(always)]
    pub fn put(&mut self, machine: &Machine, outbox: &mut Queue<Message>) -> bool
        requires seat { IsAt machine.now self.old }
        requires stands { Stands machine.now self.old }
        requires outbox { (hold self.old).outbox ≡ values_of outbox.old }
        requires linked { AllLinked self.old.cores self.old.banks self.old.number
            (values_of outbox.old) }
        ensures seat { IsAt machine.now self.new × Stays self.old self.new }
        ensures stands { Stands machine.now self.new }
        ensures outbox { (hold self.new).outbox ≡ values_of outbox.new }
        ensures linked { AllLinked self.new.cores self.new.banks self.new.number
            (values_of outbox.new) }
        ensures put { Puts result self.old (values_of outbox.old) self.new (values_of outbox.new) }
    {
        let mut next = outbox.front();
        // Whether the link to the core or bank of a number was found full.
        let mut full = [false; 64];
        for index in 0..outbox.len() {
            let Some(cell) = next else {
                return false;
            };
            let (link, end) = self.link_of_cell(machine, outbox, cell);
            if !full[end] && self.put_cell(machine, outbox, cell, index as usize, link) {
                return true;
            }
            full[end] = true;
            next = outbox.next(cell);
        }
        false
    }

    // The link of the message of a cell of the outbox, and the core or bank to which it goes.
    fn link_of_cell(&self, machine: &Machine, outbox: &Queue<Message>, cell: Cell) -> (usize, usize)
        requires seat { IsAt machine.now self.now }
        requires linked { AllLinked self.now.cores self.now.banks self.now.number
            (values_of outbox.now) }
        requires cell { IsIn cell outbox.now }
        ensures link { StartsAt machine.now.set_up result.0 self.now.number }
        ensures end { result.1 < 64 }
        ensures message { (m : Message) × ((k : ℕ) → IsAfter k cell outbox.now →
            slice_get (values_of outbox.now) k ≡ Some m) ×
            (m.to ≡ node_of machine.now.set_up (target machine.now.set_up result.0)) ×
            (result.0 ≡ link_to self.now.cores self.now.banks self.now.number m.to) ×
            (result.1 ≡ end_of m.to) × (has_link_to self.now.cores self.now.banks self.now.number
            m.to ≡ true) }
    {
        slots_are_few(&machine.set_up.config);
        let to = outbox.get(cell).to;
        let config = &machine.set_up.config;
        (
            link_number_to(config, self.number, &to),
            link_end_number(config, self.number, &to),
        )
    }

    // Puts the message of a cell of the outbox, which comes after `index` others, into a slot of its link.
    fn put_cell(
        &mut self,
        machine: &Machine,
        outbox: &mut Queue<Message>,
        cell: Cell,
        index: usize,
        link: usize,
    ) -> bool
        requires seat { IsAt machine.now self.old }
        requires stands { Stands machine.now self.old }
        requires outbox { (hold self.old).outbox ≡ values_of outbox.old }
        requires linked { AllLinked self.old.cores self.old.banks self.old.number
            (values_of outbox.old) }
        requires link { StartsAt machine.now.set_up link self.old.number }
        requires cell { IsAfter index cell outbox.old }
        requires message { (m : Message) × (slice_get (values_of outbox.old) index ≡ Some m) ×
            (m.to ≡ node_of machine.now.set_up (target machine.now.set_up link)) }
        ensures seat { IsAt machine.now self.new × Stays self.old self.new }
        ensures stands { Stands machine.now self.new }
        ensures outbox { (hold self.new).outbox ≡ values_of outbox.new }
        ensures linked { AllLinked self.new.cores self.new.banks self.new.number
            (values_of outbox.new) }
        ensures put { PutAt link index result self.old (values_of outbox.old) self.new
            (values_of outbox.new) }
        ensures kept { result ≡ false → outbox.new ≡ outbox.old }
    {
        seats_stand();
        match find_free_slot(&machine.table.shared, &mut self.seat, link) {
            None => false,
            Some(slot) => {
                let message = outbox.take(cell);
                send_into_slot(&machine.table.shared, &mut self.seat, slot, message, index);
                true
            }
        }
    }
}
