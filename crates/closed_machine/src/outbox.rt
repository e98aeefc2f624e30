//! What a seat sends by.
ghost use Rattle.std.specs.Prelude.{◌≡◌, ◌+◌, ◌-◌, ◌<◌, ◌≤◌, ◌^◌, nat_eq, length, IfOk};
ghost use Rattle.std.specs.Borrow.{sem};
ghost use Rattle.network.specs.Mail.{AreCounts};
ghost use Rattle.machine_theorem.specs.Bags.{weigh};
ghost use Rattle.machine_theorem.specs.Ownership.{ownership_in};
ghost use Rattle.inbox.specs.Queues.{values_of};
ghost use Rattle.closed_machine.specs.Sending.{can_still_send, can_send_out, has_outbox_place};
ghost use Rattle.closed_machine.specs.Sending.{no_outbox, noted, sent_out};

use crate::owners::grants_in_message;
use inbox::Queue;
use machine_table::Counts;
use network::{LineNo, Message};
use std::alloc::{AllocError, Global};
use std::marker::Model;

/// What a seat sends by: up to 256 messages to be put, the oldest first, and how many messages it sent, of the counted
/// kinds and in all. Contracts see the messages and the counts.
#[derive(Drop)]
pub struct Outbox {
    queue: Queue<Message>,
    counts: Counts,
    // how many messages the seat sent, to its outbox or to its own held list
    sent: u64,
}

impl Model for Outbox {
    ghost use Rattle.network.specs.Mail.{AreCounts};
    ghost use Rattle.inbox.specs.Queues.{values_of};
    ghost use Rattle.closed_machine.specs.Sending.{OutboxState};

    ghost Value = { OutboxState };

    ghost view = { λ b. record {
      messages = values_of b.queue;
      counts = b.counts;
      sent = b.sent;
    } };

    ghost invariant = { λ b. AreCounts b.counts b.sent };
}

impl Outbox {
    ghost use Rattle.closed_machine.specs.OutboxLends.{lends_queue};

    /// An outbox of a seat that sent nothing. All its memory, for 256 messages, is allocated here.
    pub fn new(alloc: Global) -> Result<Outbox, AllocError>
        ensures { IfOk result (λ outbox. outbox ≡ no_outbox) }
    {
        let queue = Queue::new(alloc)?;
        Ok(Outbox {
            queue,
            counts: Counts::zeros(),
            sent: 0,
        })
    }

    /// How many messages are to be put, up to 256.
    pub fn len(&self) -> u32
        ensures value { result ≡ length self.now.messages }
        ensures within { length self.now.messages ≤ 256 }
    {
        self.queue.len()
    }

    /// Whether no message is to be put.
    pub fn is_empty(&self) -> bool
        ensures { result ≡ nat_eq (length self.now.messages) 0 }
    {
        self.queue.is_empty()
    }

    /// The messages that are to be put, the oldest first: a seat takes out those that it puts. The counts don't
    /// change.
    pub fn queue(&mut self) -> &mut Queue<Message>
        ensures* takes_back { sem 𝓛 (lends_queue self.entry result) }
        ensures value { values_of result.now ≡ self.old.messages }
    {
        &mut self.queue
    }

    /// How many messages of the counted kinds the seat sent.
    pub fn counts(&self) -> Counts
        ensures value { result ≡ self.now.counts }
        ensures within { AreCounts result (2 ^ 64 - 1) }
    {
        let _fits = self.sent;
        self.counts
    }

    /// How many of the messages to be put are grants or returns of a line.
    pub(crate) fn grants(&self, line: LineNo) -> u32
        ensures value { result ≡ weigh (ownership_in line) self.now.messages }
        ensures within { result ≤ 256 }
    {
        let mut count = 0;
        let mut next = self.queue.front();
        for _ in 0..self.queue.len() {
            let Some(cell) = next else {
                return count;
            };
            count += grants_in_message(Some(self.queue.get(cell)), line);
            next = self.queue.next(cell);
        }
        count
    }

    /// Whether there is place for one more message.
    pub fn has_place(&self) -> bool
        ensures { result ≡ has_outbox_place self.now }
    {
        self.queue.len() < 256
    }

    /// Whether the seat sent fewer messages than the 2 ^ 64 - 1 that it can send.
    pub fn can_send(&self) -> bool
        ensures { result ≡ can_still_send self.now }
    {
        self.sent < u64::MAX
    }

    /// Whether one more message can be put into the outbox: there is place for it, and the seat can send one more.
    pub fn can_send_out(&self) -> bool
        ensures { result ≡ can_send_out self.now }
    {
        self.has_place() && self.can_send()
    }

    /// Sends a message: it is to be put after the others, and is counted.
    pub fn send(&mut self, message: Message)
        requires place { length self.old.messages < 256 }
        requires number { self.old.sent < 2 ^ 64 - 1 }
        ensures { self.new ≡ sent_out self.old message }
    {
        self.counts.count(&message.body);
        self.sent += 1;
        self.queue.push(message);
    }

    /// Counts a message that the seat sends to its own held list.
    pub fn count_sent_to_held(&mut self, message: &Message)
        requires { self.old.sent < 2 ^ 64 - 1 }
        ensures { self.new ≡ noted self.old message.now }
    {
        self.counts.count(&message.body);
        self.sent += 1;
    }
}
