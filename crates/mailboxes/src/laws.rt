//! Laws of looks and of sending, for callers. The functions do nothing: their contracts are the laws.
ghost use Rattle.std.specs.Prelude.{◌≡◌, ◌≢◌, ℕ, ◌<◌, ◌≤◌, true, false, AllPairs, Err, List, None, Ok, Some};
ghost use Rattle.std.specs.Prelude.{length, slice_get};
ghost use Rattle.physiological_order.specs.declared.operation.Op.{Op};
ghost use Rattle.network.specs.declared.message.Message.{Message};
ghost use Rattle.core_pts.specs.CoreTable.{CoreState, issue};
ghost use Rattle.machine_table.specs.declared.event.Refusal.TheVariants.{Busy, TooMany};
ghost use Rattle.machine_table.specs.SetUp.{is_good};
ghost use Rattle.seat_rule.specs.declared.views.SetUp.{SetUp};
ghost use Rattle.mailboxes.specs.Places.{AllFoundEmpty, AllFoundFull};
ghost use Rattle.mailboxes.specs.Places.{found_empty, found_full, incoming_count, link_to};
ghost use Rattle.mailboxes.specs.declared.mailbox.Mailbox.{Mailbox};
ghost use Rattle.mailboxes.specs.BoxMoves.{Puts};
ghost use Rattle.mailboxes.specs.CoreCalls.{issue_answer};
ghost use Rattle.closed_machine.specs.Sending.{OutboxState, can_still_send, can_send_out};

/// A seat that takes nothing has looked at each slot that comes in to it: the slots that it looks at, from the cursor
/// on and going round, are all of them.
pub fn all_incoming_slots_are_looked_at()
    ensures { (z : SetUp) (number start : ℕ) → is_good z.config ≡ true → AllFoundEmpty z number
        (found_empty z.config.cores z.config.banks number start
        (incoming_count z.config.cores z.config.banks number)) }
{}

/// A seat that puts nothing has looked, for each message of its outbox, at each slot of the link to where the message
/// goes. The same is true of the messages that are older than one that it puts.
pub fn all_slots_of_a_link_are_looked_at()
    ensures { (z : SetUp) (number : ℕ) (ms : List Message) → is_good z.config ≡ true →
        AllFoundFull z number ms (found_full z.config.cores z.config.banks number ms) }
{}

/// Messages of one link are put in their order: each older message that stays in the outbox goes on another link.
pub fn messages_of_a_link_keep_their_order()
    ensures { (p q : Mailbox) (out left : List Message) (put : Puts true p out q left) →
        (j : ℕ) (m : Message) → j < put.0 → slice_get out j ≡ Some m →
        link_to p.cores p.banks p.number m.to ≢ link_to p.cores p.banks p.number put.2.to }
{}

/// A seat that looks at the links of messages looks at no slot twice, so at most four times at a link.
pub fn no_slot_is_looked_at_twice()
    ensures { (cores banks number : ℕ) (ms : List Message) →
        AllPairs (λ a b. a.0 ≢ b.0) (found_full cores banks number ms) }
{}

/// A seat can send a message exactly if it sent fewer than 18,446,744,073,709,551,615. It can send one out exactly if
/// it also has fewer than 256 messages to be put.
pub fn seats_send_up_to_the_last_number()
    ensures sends { (o : OutboxState) → o.sent < 18446744073709551615 → can_still_send o ≡ true }
    ensures ends { (o : OutboxState) → 18446744073709551615 ≤ o.sent → can_still_send o ≡ false }
    ensures sends_out { (o : OutboxState) → length o.messages < 256 →
        o.sent < 18446744073709551615 → can_send_out o ≡ true }
    ensures is_full { (o : OutboxState) → 256 ≤ length o.messages → can_send_out o ≡ false }
{}

/// A seat that isn't stopped takes an operation if none is open and its core was issued fewer than 4,294,967,295. It
/// answers Busy while one is open, however many its core was issued, and TooMany after 4,294,967,295 of them.
pub fn seats_take_operations_up_to_the_last()
    ensures takes { (core : CoreState) (op : Op) → core.open_op ≡ None → core.issued < 4294967295 →
        issue_answer false (issue core op).0 ≡ Ok tt }
    ensures busy { (core : CoreState) (op other : Op) → core.open_op ≡ Some other →
        issue_answer false (issue core op).0 ≡ Err Busy }
    ensures many { (core : CoreState) (op : Op) → core.open_op ≡ None → core.issued ≡ 4294967295 →
        issue_answer false (issue core op).0 ≡ Err TooMany }
{}
