//! The messages in flight, by number.
ghost use Rattle.std.specs.Prelude.{◌≡◌, ◌+◌, ◌*◌, ◌<◌, ◌≤◌, ◌^◌, ◌++◌, ◌∷◌, [], false, IsTrue, IfOk, IfErr, IfSome};
ghost use Rattle.std.specs.Prelude.{OnOk, OnErr, IsOk, Option, None, Some, option_copied, option_map, length, map};
ghost use Rattle.std.specs.Prelude.{IsSome, is_some, slice_get, vec_capacity};
ghost use Rattle.network.specs.Flight.{IsWithMail};
ghost use Rattle.network.specs.SetUp.{IsInRange};
ghost use Rattle.network.specs.NumberedMessages.{IsRising, at_number};
ghost use Rattle.network.specs.Routes.{has_endpoints};
ghost use Rattle.network.specs.Search.{count_messages, first_message, is_between, is_ownership_of, is_store_of};
ghost use Rattle.network.specs.ErrorNumbers.{send_number};
ghost use Rattle.network.specs.Mail.{answered, has_capacity, has_number, no_mail, sent, taken};

use crate::counts::Counts;
use crate::criteria::Wanted;
use crate::linked::LinkedMessages;
use crate::message::{Message, Node};
use crate::numbers::{LineNo, MsgNo};
use std::alloc::{AllocError, Global};
use std::marker::Model;

/// Why a message can't be sent.
#[derive(Clone, Copy, Debug, PartialEq, Eq)]
pub enum SendError {
    /// 1: as many messages are in flight as may be, or the numbers are used up.
    Full,
    /// 2: allocation failed.
    NoMemory,
}

impl SendError {
    /// The error's number, as above.
    pub fn number(self) -> u8
        ensures { result ≡ send_number self }
    {
        match self {
            SendError::Full => 1,
            SendError::NoMemory => 2,
        }
    }
}

/// The messages in flight, each with the number that it got when it was sent. Contracts see the list of both by rising
/// number, the number that the next one gets, how many of the counted kinds were sent, how many slots are kept, and
/// how many messages can be sent before the next allocation.
#[derive(Drop)]
pub struct InFlight {
    capacity: u32,
    // how many of the counted kinds were sent
    counts: Counts,
    linked: LinkedMessages,
}

impl Model for InFlight {
    ghost use Rattle.network.specs.Flight.{Flight, IsKept, flight_of};

    ghost Value = { Flight };

    ghost view = { λ a. flight_of a.capacity a.counts a.linked };

    ghost invariant = { λ a. IsKept a.capacity a.counts a.linked };
}

impl InFlight {
    /// No message in flight, for a machine with 1 to 64 cores and 1 to 8 banks. At most `capacity`, 1 to 65,536, may
    /// be in flight at once. All memory for these is allocated here, and none of it is written.
    pub fn new(alloc: Global, cores: u32, banks: u32, capacity: u32) -> Result<InFlight, AllocError>
        requires { IsInRange cores banks capacity }
        ensures { IfOk result (λ flight. flight ≡ record {
          cores = cores;
          banks = banks;
          capacity = capacity;
          slots =
              0;
          reserved = flight.reserved;
          mail = no_mail;
        }) }
    {
        let linked = LinkedMessages::new(alloc, cores, banks, capacity)?;
        Ok(InFlight {
            capacity,
            counts: Counts::zeros(),
            linked,
        })
    }

    /// Drops all messages, and counts and numbers from 0 again, as a new one does. It neither allocates nor frees
    /// memory. Its time is in proportion to the slots that are kept, and to the most messages that were in flight at
    /// once since the memory was allocated or last cleared.
    pub fn clear(&mut self)
        ensures { self.new ≡ record self.old {
          slots = 0;
          reserved =
              self.new.reserved;
          mail = no_mail;
        } }
    {
        self.linked.clear();
        self.counts = Counts::zeros();
    }

    /// Whether the numbers are not used up: the last one, 2^64 - 1, is given to no message.
    #[inline(always)]
    pub fn has_number(&self) -> bool
        ensures { result ≡ has_number self.now.mail }
    {
        self.linked.next() < u64::MAX
    }

    /// Whether one more message can be sent. No more are ever in flight than may be.
    #[inline(always)]
    pub fn has_capacity(&self) -> bool
        ensures value { result ≡ has_capacity self.now.capacity self.now.mail }
        ensures bound { length self.now.mail.messages ≤ self.now.capacity }
    {
        self.linked.count() < self.capacity && self.linked.next() < u64::MAX
    }

    /// The message with this number, if it is in flight.
    #[inline(always)]
    pub fn look(&self, number: MsgNo) -> Option<&Message>
        ensures value { option_copied result ≡ at_number number self.now.mail.messages }
        ensures endpoints { IfSome result
            (λ message. IsTrue (has_endpoints self.now.cores self.now.banks message.now)) }
    {
        self.linked.look(number.0)
    }

    /// Notes where the message with this number lies, if it is in flight: the next look-up of it, and of the one sent
    /// after it, needs no search. Contracts see nothing of that.
    #[inline(always)]
    pub fn seek(&mut self, number: MsgNo)
        ensures { self.new ≡ self.old }
    {
        self.linked.seek(number.0);
    }

    /// Reserves memory for one more message: `new` allocated it, so this never fails.
    pub fn reserve(&mut self) -> Result<(), AllocError>
        ensures after { self.new ≡ self.old }
        ensures ok { 0 < self.new.reserved }
        ensures sure { IsOk result }
    {
        let _slots = self.linked.slots();
        Ok(())
    }

    /// Sends a message, which has the endpoints of its kind: it gets the next number. Otherwise the caller gets the
    /// message back, and nothing changes. The call allocates nothing, and never answers NoMemory.
    #[inline(always)]
    pub fn send(&mut self, message: Message) -> Result<MsgNo, (SendError, Message)>
        requires { IsTrue (has_endpoints self.old.cores self.old.banks message) }
        ensures number { IfOk result (λ number. number ≡ self.old.mail.next) }
        ensures after { OnOk result (self.new ≡ record self.old {
          slots = self.old.slots + 1;
          reserved =
              self.new.reserved;
          mail = sent self.old.mail message;
        }) }
        ensures reserved { OnOk result (self.old.reserved ≡ self.new.reserved + 1) }
        ensures refused { OnErr result (self.new ≡ self.old) }
        ensures returned { IfErr result (λ refusal. refusal.1 ≡ message) }
        ensures full { has_capacity self.old.capacity self.old.mail ≡ false →
            result ≡ Err (SendError.Full, message) }
        ensures not_full { IfErr result (λ refusal. refusal.0 ≡ SendError.Full →
            has_capacity self.old.capacity self.old.mail ≡ false) }
        ensures sure { IfErr result (λ refusal. refusal.0 ≡ SendError.Full) }
    {
        if self.linked.count() >= self.capacity {
            return Err((SendError::Full, message));
        }
        if self.linked.next() == u64::MAX {
            return Err((SendError::Full, message));
        }
        self.counts.count(&message.body);
        Ok(MsgNo(self.linked.push(message)))
    }

    /// Takes the message with this number, if it is in flight; if it isn't, nothing changes. The call allocates
    /// nothing, and keeps what is reserved.
    pub fn take(&mut self, number: MsgNo) -> Option<Message>
        ensures value { result ≡ at_number number self.old.mail.messages }
        ensures absent { result ≡ None → self.new ≡ self.old }
        ensures after { IsWithMail (taken self.old.mail number) self.old self.new }
        ensures reserved { self.old.reserved ≤ self.new.reserved }
        ensures endpoints { IfSome result
            (λ message. IsTrue (has_endpoints self.old.cores self.old.banks message)) }
    {
        let message = self.linked.look(number.0).copied();
        let _there = self.linked.remove(number.0);
        message
    }

    /// Removes the message with this number, and answers whether it was in flight; if it wasn't, nothing changes. As
    /// `take`, but the caller doesn't get the message. The call allocates nothing, and keeps what is reserved.
    #[inline(always)]
    pub fn remove(&mut self, number: MsgNo) -> bool
        ensures value { result ≡ is_some (at_number number self.old.mail.messages) }
        ensures absent { result ≡ false → self.new ≡ self.old }
        ensures after { IsWithMail (taken self.old.mail number) self.old self.new }
        ensures reserved { self.old.reserved ≤ self.new.reserved }
    {
        self.linked.remove(number.0)
    }

    /// Takes the message with this number, which is in flight, and sends another in its place: that gets the next
    /// number. There always is room for it. The call allocates nothing: it uses up at most what is reserved for one
    /// message, and leaves some.
    #[inline(always)]
    pub fn answer(&mut self, number: MsgNo, message: Message) -> MsgNo
        requires there { IsSome (at_number number self.old.mail.messages) }
        requires endpoints { IsTrue (has_endpoints self.old.cores self.old.banks message) }
        requires number { IsTrue (has_number self.old.mail) }
        ensures number { result ≡ self.old.mail.next }
        ensures after { IsWithMail (answered self.old.mail number message) self.old self.new }
        ensures reserved { self.old.reserved ≤ self.new.reserved + 1 }
        ensures room { 0 < self.new.reserved }
    {
        self.counts.count(&message.body);
        MsgNo(self.linked.answer(number.0, message))
    }

    /// How many slots are kept: one for each message in flight, and those of taken messages that weren't freed yet. At
    /// most one more of them is empty than has its message, so the slots of old messages don't add up.
    pub fn slots(&self) -> usize
        ensures slots { result ≡ self.now.slots }
        ensures bound { result ≤ 2 * length self.now.mail.messages + 1 }
    {
        self.linked.slots()
    }

    /// How many of the counted kinds were sent.
    pub fn counts(&self) -> Counts
        ensures { result ≡ self.now.mail.counts }
    {
        self.counts
    }

    /// The number of the first message, in the order of sending, from the one node to the other.
    pub fn oldest(&self, from: Node, to: Node) -> Option<MsgNo>
        ensures { result ≡ option_map (λ x. x.0) (first_message (is_between from to)
            self.now.mail.messages) }
    {
        self.linked.oldest(from, to)
    }

    /// The numbers of the messages in flight, in rising order.
    pub fn numbers(&self) -> Result<Vec<MsgNo>, AllocError>
        ensures numbers { IfOk result (λ numbers. numbers.items ≡ map (λ x. x.0)
            self.now.mail.messages) }
        ensures rising { IsRising 0 self.now.mail.messages self.now.mail.next }
    {
        self.linked.numbers()
    }

    /// Fills a list with the numbers of the messages in flight, in rising order. It empties the list first, and keeps
    /// the memory that the list has. It allocates only if that is too small for all numbers; if the allocation fails,
    /// the list is empty.
    pub fn list_numbers(&self, into: &mut Vec<MsgNo>) -> Result<(), AllocError>
        ensures numbers { OnOk result (into.new.items ≡ map (λ x. x.0) self.now.mail.messages) }
        ensures refused { OnErr result (into.new.items ≡ []) }
        ensures wanted { OnErr result (vec_capacity into.old < length self.now.mail.messages) }
        ensures kept { vec_capacity into.old ≤ vec_capacity into.new }
        ensures rising { IsRising 0 self.now.mail.messages self.now.mail.next }
    {
        self.linked.list_numbers(into)
    }

    /// How many messages are in flight.
    #[inline(always)]
    pub fn count(&self) -> u32
        ensures { result ≡ length self.now.mail.messages }
    {
        self.linked.count()
    }

    /// The number of the message at an index of those in flight, in the order of sending; `None` past the last one.
    pub fn nth(&self, at: u32) -> Option<MsgNo>
        ensures { result ≡ slice_get (map (λ x. x.0) self.now.mail.messages) at }
    {
        self.linked.nth(at)
    }

    /// The same. The call gives back the slots of taken messages, and notes where the message lies, as `seek` does.
    pub fn seek_nth(&mut self, at: u32) -> Option<MsgNo>
        ensures number { result ≡ slice_get (map (λ x. x.0) self.old.mail.messages) at }
        ensures after { IsWithMail self.old.mail self.old self.new }
        ensures slots { self.new.slots ≡ length self.old.mail.messages }
        ensures reserved { self.old.reserved ≤ self.new.reserved }
    {
        self.linked.seek_nth(at)
    }

    /// How many messages carry the line's ownership.
    pub fn owners(&self, line: LineNo) -> usize
        ensures { result ≡ count_messages (is_ownership_of line) self.now.mail.messages }
    {
        self.linked.count_wanted(&Wanted::OwnershipOf(line))
    }

    /// The first message, in the order of sending, that carries the line's ownership.
    pub fn ownership_of(&self, line: LineNo) -> Option<&Message>
        ensures { option_copied result ≡ option_map (λ x. x.1)
            (first_message (is_ownership_of line) self.now.mail.messages) }
    {
        self.linked.first_wanted(&Wanted::OwnershipOf(line))
    }

    /// The first message, in the order of sending, that stores the line's words in DRAM.
    pub fn store_of(&self, line: LineNo) -> Option<&Message>
        ensures { option_copied result ≡ option_map (λ x. x.1) (first_message (is_store_of line)
            self.now.mail.messages) }
    {
        self.linked.store_of(line)
    }
}
