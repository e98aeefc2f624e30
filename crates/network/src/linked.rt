//! The messages in flight as they lie in memory: each with its number on the list of its link.
ghost use Rattle.std.specs.Prelude.{◌≡◌, ◌+◌, ◌-◌, ◌*◌, ◌<◌, ◌≤◌, ◌^◌, ◌++◌, ◌∷◌, [], IsTrue, IfOk, IfSome};
ghost use Rattle.std.specs.Prelude.{get_or, is_some, length, map, option_copied, option_map, slice_get, OnErr, OnOk};
ghost use Rattle.std.specs.Prelude.{false, IsSome, vec_capacity};
ghost use Rattle.network.specs.SetUp.{IsInRange};
ghost use Rattle.network.specs.NumberedMessages.{IsRising, at_number, given, still_there, without_number};
ghost use Rattle.network.specs.Requests.{is_wanted};
ghost use Rattle.network.specs.Routes.{has_endpoints};
ghost use Rattle.network.specs.Search.{count_messages, earlier, first_message, is_between, is_store_of};
ghost use Rattle.network.specs.Search.{kept_if, with_message};
ghost use Rattle.network.specs.Stored.{ArePlaced, cell_messages, at_cell};

use crate::criteria::Wanted;
use crate::links::{count_links, link_of};
use crate::message::{Body, Message, Node};
use crate::numbers::{LineNo, MsgNo};
use crate::slots::{
    Slot, cell_of_message, drop_slot_gaps, drop_surplus_empty_slots, index_behind_slot,
    list_numbers, nth_message_number, slots_with_room, take_cell,
};
use line_arena::laws::{appended, looked_up, taken_off};
use line_arena::{Arena, ArenaError, Cell};
use std::alloc::{AllocError, Global};
use std::marker::Model;

/// Messages with their numbers, for a machine with these cores and banks. Each lies in a cell of an arena, on the list
/// of its link, and a slot has its number and its cell until it is taken. Contracts see the messages by rising number,
/// the number that the next one gets, how many messages there is room for, how many slots are kept, and how many slots
/// there is room for.
#[derive(Drop)]
pub struct LinkedMessages {
    cores: u32,
    banks: u32,
    next: u64,
    // how many slots still have a cell
    count: u32,
    slots: Vec<Slot>,
    // the index behind the slot that was last found: the slot there is tried first
    near: usize,
    // each link's messages with their numbers, in the order of sending
    arena: Arena<(u64, Message)>,
}

impl Model for LinkedMessages {
    ghost use Rattle.std.specs.Prelude.{vec_capacity};
    ghost use Rattle.network.specs.Stored.{IsStored, Linked, linked_of};

    ghost Value = { Linked };

    ghost view = { λ a. linked_of a.cores a.banks a.next (vec_capacity a.slots) a.slots.items a.arena };

    ghost invariant = { λ a. IsStored a.cores a.banks a.next a.count (vec_capacity a.slots) a.slots.items a.arena };
}

/// The message that a slot's cell has, if it has a cell and the search looks for the message.
fn wanted_message_in_slot<'a>(
    arena: &'a Arena<(u64, Message)>,
    slot: &Slot,
    wanted: &Wanted,
) -> Option<&'a Message>
    requires { ArePlaced arena.now.lists (given slot.now.0 slot.now.1 []) }
    ensures { option_copied result ≡ kept_if (is_wanted wanted.now) (at_cell arena.now.lists
        slot.now.1) }
{
    let cell = slot.1?;
    let message = &arena.get(Cell(cell)).1;
    if wanted.wants_message(message) {
        Some(message)
    } else {
        None
    }
}

/// The first message that the search looks for, with its number; `None` if there is none.
fn first_wanted_message<'a>(
    arena: &'a Arena<(u64, Message)>,
    slots: &[Slot],
    wanted: &Wanted,
) -> Option<(u64, &'a Message)>
    requires { ArePlaced arena.now.lists (still_there slots.now) }
    ensures { option_map with_message result ≡ first_message (is_wanted wanted.now)
        (cell_messages arena.now.lists (still_there slots.now)) }
{
    for slot in slots {
        if let Some(message) = wanted_message_in_slot(arena, slot, wanted) {
            return Some((slot.0, message));
        }
    }
    None
}

/// How many messages the search looks for.
fn count_wanted_messages(arena: &Arena<(u64, Message)>, slots: &[Slot], wanted: &Wanted) -> usize
    requires { ArePlaced arena.now.lists (still_there slots.now) }
    ensures { result ≡ count_messages (is_wanted wanted.now) (cell_messages arena.now.lists
        (still_there slots.now)) }
{
    let mut count = 0;
    for slot in slots {
        if wanted_message_in_slot(arena, slot, wanted).is_some() {
            count += 1;
        }
    }
    count
}

/// The first message of a list that the search looks for, with its number; `None` if there is none.
fn first_wanted_on_link<'a>(
    arena: &'a Arena<(u64, Message)>,
    list: u32,
    wanted: &Wanted,
) -> Option<(u64, &'a Message)>
    requires { list < length arena.now.lists }
    ensures { option_map with_message result ≡ first_message (is_wanted wanted.now)
        (map (λ a. a.1) (get_or arena.now.lists list [])) }
{
    looked_up::<(u64, Message)>();
    let _lists = arena.lists();
    let count = arena.len(list);
    let mut next = arena.front(list);
    for _ in 0..count {
        let Some(cell) = next else {
            return None;
        };
        let entry = arena.get(cell);
        if wanted.wants_message(&entry.1) {
            return Some((entry.0, &entry.1));
        }
        next = arena.next(cell);
    }
    None
}

/// Of two messages the one with the lower number, or the one that there is.
fn earlier_message<'a>(
    one: Option<(u64, &'a Message)>,
    other: Option<(u64, &'a Message)>,
) -> Option<(u64, &'a Message)>
    ensures { option_map with_message result ≡ earlier (option_map with_message one.entry)
        (option_map with_message other.entry) }
{
    match (one, other) {
        (None, _) => other,
        (Some(_), None) => one,
        (Some(first), Some(second)) => if second.0 < first.0 { other } else { one },
    }
}

impl LinkedMessages {
    /// No message, and room for `capacity`. All memory is allocated here, and none of it is written but the heads of
    /// the lists.
    pub(crate) fn new(
        alloc: Global,
        cores: u32,
        banks: u32,
        capacity: u32,
    ) -> Result<LinkedMessages, AllocError>
        requires { IsInRange cores banks capacity }
        ensures { IfOk result (λ stored. stored ≡ record {
          cores = cores;
          banks = banks;
          capacity = capacity;
          slots =
              0;
          room = stored.room;
          next = 0;
          messages = [];
        }) }
    {
        let slots = slots_with_room(alloc, capacity)?;
        match Arena::new(alloc, capacity, count_links(cores, banks)) {
            Ok(arena) => Ok(LinkedMessages {
                cores,
                banks,
                next: 0,
                count: 0,
                slots,
                near: 0,
                arena,
            }),
            Err(ArenaError::NoMemory) => Err(AllocError),
            Err(ArenaError::TooLarge) => unreachable!(),
        }
    }

    /// Drops all messages and all slots, and keeps the memory; numbers start from 0 again.
    pub(crate) fn clear(&mut self)
        ensures { self.new ≡ record self.old {
          slots = 0;
          next = 0;
          messages = [];
        } }
    {
        self.slots.clear();
        self.arena.clear();
        self.next = 0;
        self.count = 0;
    }

    /// The number that the next message gets.
    #[inline(always)]
    pub(crate) fn next(&self) -> u64
        ensures { result ≡ self.now.next }
    {
        self.next
    }

    /// How many messages there are, never more than there is room for.
    #[inline(always)]
    pub(crate) fn count(&self) -> u32
        ensures value { result ≡ length self.now.messages }
        ensures bound { result ≤ self.now.capacity }
    {
        self.count
    }

    /// How many slots are kept: one for each message, and at most one more that is empty than has a cell. There is room
    /// for one more.
    pub(crate) fn slots(&self) -> usize
        ensures slots { result ≡ self.now.slots }
        ensures bound { result ≤ 2 * length self.now.messages + 1 }
        ensures room { result < self.now.room }
    {
        self.slots.len()
    }

    /// The message with a number, if it is there.
    #[inline(always)]
    pub(crate) fn look(&self, number: u64) -> Option<&Message>
        ensures value { option_copied result ≡ at_number number self.now.messages }
        ensures endpoints { IfSome result
            (λ message. IsTrue (has_endpoints self.now.cores self.now.banks message.now)) }
    {
        let cell = cell_of_message(&self.slots, number, self.near)?;
        Some(&self.arena.get(Cell(cell)).1)
    }

    /// Notes the slot of a number, if it is there. Later calls first try the slot behind it, then that one.
    #[inline(always)]
    pub(crate) fn seek(&mut self, number: u64)
        ensures { self.new ≡ self.old }
    {
        self.near = index_behind_slot(&self.slots, number, self.near);
    }

    /// Puts a message at the end of the list of its link, and gives it the next number.
    #[inline(always)]
    pub(crate) fn push(&mut self, message: Message) -> u64
        requires endpoints { IsTrue (has_endpoints self.old.cores self.old.banks message) }
        requires number { self.old.next < 2 ^ 64 - 1 }
        requires room { length self.old.messages < self.old.capacity }
        ensures number { result ≡ self.old.next }
        ensures after { self.new ≡ record self.old {
          slots = self.old.slots + 1;
          next = self.old.next + 1;
          messages =
              self.old.messages ++ (self.old.next, message) ∷ [];
        } }
        ensures slot { self.old.slots < self.old.room }
    {
        appended::<(u64, Message)>();
        let _body: Body = message.body;
        let number = self.next;
        let link = link_of(self.cores, self.banks, message.from, message.to);
        let pushed = self.arena.push_back(link.unwrap(), (number, message));
        let cell = pushed.unwrap();
        self.slots.push_reserved((number, Some(cell.0)));
        self.next = number + 1;
        self.count += 1;
        number
    }

    /// Takes the message with a number off its list, and answers whether it was there.
    #[inline(always)]
    pub(crate) fn remove(&mut self, number: u64) -> bool
        ensures value { result ≡ is_some (at_number number self.old.messages) }
        ensures absent { result ≡ false → self.new ≡ self.old }
        ensures after { self.new ≡ record self.old {
          slots = self.new.slots;
          messages = without_number number self.old.messages;
        } }
        ensures slots { self.new.slots ≤ self.old.slots }
    {
        looked_up::<(u64, Message)>();
        taken_off::<(u64, Message)>();
        let _lists = self.arena.lists();
        let Some(cell) = take_cell(&mut self.slots, number, &mut self.near) else {
            return false;
        };
        let _message = self.arena.unlink(Cell(cell));
        self.count -= 1;
        drop_surplus_empty_slots(&mut self.slots, self.count as usize, &mut self.near);
        true
    }

    /// Takes the message with a number, which is there, off its list, and puts another one into its cell, at the end of
    /// the list of its own link. That one gets the next number.
    #[inline(always)]
    pub(crate) fn answer(&mut self, number: u64, reply: Message) -> u64
        requires there { IsSome (at_number number self.old.messages) }
        requires endpoints { IsTrue (has_endpoints self.old.cores self.old.banks reply) }
        requires number { self.old.next < 2 ^ 64 - 1 }
        ensures number { result ≡ self.old.next }
        ensures after { self.new ≡ record self.old {
          slots = self.new.slots;
          next = self.old.next + 1;
          messages =
              without_number number self.old.messages ++ (self.old.next, reply) ∷ [];
        } }
        ensures slots { self.new.slots ≤ self.old.slots + 1 }
        ensures room { self.new.slots < self.new.room }
    {
        looked_up::<(u64, Message)>();
        taken_off::<(u64, Message)>();
        appended::<(u64, Message)>();
        let _lists = self.arena.lists();
        let _body: Body = reply.body;
        let next = self.next;
        let link = link_of(self.cores, self.banks, reply.from, reply.to);
        let taken = take_cell(&mut self.slots, number, &mut self.near);
        let cell = taken.unwrap();
        let _before = self.arena.refill(link.unwrap(), Cell(cell), (next, reply));
        self.slots.push_reserved((next, Some(cell)));
        self.next = next + 1;
        drop_surplus_empty_slots(&mut self.slots, self.count as usize, &mut self.near);
        next
    }

    /// The number of the first message from the one node to the other.
    pub(crate) fn oldest(&self, from: Node, to: Node) -> Option<MsgNo>
        ensures { result ≡ option_map (λ x. x.0) (first_message (is_between from to)
            self.now.messages) }
    {
        let link = link_of(self.cores, self.banks, from, to)?;
        let cell = self.arena.front(link)?;
        Some(MsgNo(self.arena.get(cell).0))
    }

    /// The first message that the search looks for.
    pub(crate) fn first_wanted(&self, wanted: &Wanted) -> Option<&Message>
        ensures { option_copied result ≡ option_map (λ x. x.1)
            (first_message (is_wanted wanted.now) self.now.messages) }
    {
        let (_, message) = first_wanted_message(&self.arena, &self.slots, wanted)?;
        Some(message)
    }

    /// The first message that stores a line's words in DRAM. The call looks only at the links to DRAM, which are the
    /// first.
    pub(crate) fn store_of(&self, line: LineNo) -> Option<&Message>
        ensures { option_copied result ≡ option_map (λ x. x.1)
            (first_message (is_store_of line) self.now.messages) }
    {
        let mut found = None;
        for bank in 0..self.banks {
            found = earlier_message(
                found,
                first_wanted_on_link(&self.arena, bank, &Wanted::StoreOf(line)),
            );
        }
        let (_, message) = found?;
        Some(message)
    }

    /// How many messages the search looks for.
    pub(crate) fn count_wanted(&self, wanted: &Wanted) -> usize
        ensures { result ≡ count_messages (is_wanted wanted.now) self.now.messages }
    {
        count_wanted_messages(&self.arena, &self.slots, wanted)
    }

    /// The numbers of the messages, in rising order.
    pub(crate) fn numbers(&self) -> Result<Vec<MsgNo>, AllocError>
        ensures numbers { IfOk result (λ numbers. numbers.items ≡ map (λ x. x.0)
            self.now.messages) }
        ensures rising { IsRising 0 self.now.messages self.now.next }
    {
        let mut numbers = Vec::new(*self.slots.allocator());
        self.list_numbers(&mut numbers)?;
        Ok(numbers)
    }

    /// Fills a list, which it empties first, with the numbers of the messages, in rising order. It allocates only if
    /// the list's memory is too small for them; if that fails, the list is empty.
    pub(crate) fn list_numbers(&self, into: &mut Vec<MsgNo>) -> Result<(), AllocError>
        ensures numbers { OnOk result (into.new.items ≡ map (λ x. x.0) self.now.messages) }
        ensures refused { OnErr result (into.new.items ≡ []) }
        ensures wanted { OnErr result (vec_capacity into.old < length self.now.messages) }
        ensures kept { vec_capacity into.old ≤ vec_capacity into.new }
        ensures rising { IsRising 0 self.now.messages self.now.next }
    {
        list_numbers(&self.slots, self.count as usize, into)
    }

    /// The number of the message at an index of those that are there, in the order of sending; `None` past the last
    /// one.
    pub(crate) fn nth(&self, at: u32) -> Option<MsgNo>
        ensures { result ≡ slice_get (map (λ x. x.0) self.now.messages) at }
    {
        nth_message_number(&self.slots, self.count as usize, at)
    }

    /// The same. The call drops the empty slots, and notes the message's slot, which is at the index then.
    pub(crate) fn seek_nth(&mut self, at: u32) -> Option<MsgNo>
        ensures number { result ≡ slice_get (map (λ x. x.0) self.old.messages) at }
        ensures after { self.new ≡ record self.old {
          slots = length self.old.messages;
        } }
        ensures slots { self.new.slots ≤ self.old.slots }
    {
        drop_slot_gaps(
            &mut self.slots,
            self.count as usize,
            self.near.wrapping_sub(1),
        );
        self.near = at as usize;
        nth_message_number(&self.slots, self.count as usize, at)
    }
}
