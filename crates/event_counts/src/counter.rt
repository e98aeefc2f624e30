//! The counts of a run as it goes, with rows of them.
ghost use Rattle.std.specs.Prelude.{◌≡◌, ◌%◌, ◌==◌, ◌&&◌, nat_lt, IfOk, OnOk, length, option_copied};
ghost use Rattle.machine_table.specs.Machine.{Machine};
ghost use Rattle.interleaving_core.specs.PartChanges.{answer_in};
ghost use Rattle.event_counts.specs.Counting.{HasRoom, IsReady, counted_on, counter_seen, end_of, goes_to};
ghost use Rattle.event_counts.specs.Counting.{is_row, no_counter};

use crate::event_counts::EventCounts;
use crate::lost_copies::{LostCopies, copy_at_risk};
use crate::row_list::RowList;
use interleaving_core::{Event, History, PlainAnswer, System};
use network::{LineNo, Message, MsgNo, Node};
use std::alloc::{AllocError, Global};
use std::marker::Model;

/// Counts what a run does, and keeps the counts as they were behind each Nth operation that completed.
/// Contracts see what it has, its room, and what it is ready for.
#[derive(Drop)]
pub struct Counter {
    counts: EventCounts,
    lost: LostCopies,
    rows: RowList,
    every: Option<u64>,
    // Of the event that is to come: the node that its message goes to, and the copy that it may take.
    to: Option<Node>,
    copy: Option<(u32, LineNo)>,
}

impl Model for Counter {
    ghost use Rattle.std.specs.FinMap as map;
    ghost use Rattle.std.specs.Ordering.{nat_cmp};
    ghost use Rattle.std.specs.Coded.{codes, coded_ℕ};
    ghost use Rattle.event_counts.specs.contracts.cause.Cause as cause;
    ghost use Rattle.event_counts.specs.Counting.{CounterState};

    ghost Value = { CounterState };

    ghost coded = { Prim.hlevel (codes, map.code {R = nat_cmp} coded_ℕ cause.the_row.coded) };

    ghost view = { λ a. record {
      seen = record { counts = a.counts; lost = a.lost.lost; rows = a.rows.rows; every = a.every };
      lost_room = a.lost.room;
      row_room = a.rows.room;
      spare = a.rows.spare;
      to = a.to;
      copy = a.copy;
    } };
}

impl Counter {
    /// The counts of a machine that has just opened, with this number of cores and banks: nothing is counted. There is
    /// to be a row each `every` operations that complete; for `None` or 0 there is none.
    pub fn new(
        alloc: Global,
        cores: u32,
        banks: u32,
        every: Option<u64>,
    ) -> Result<Counter, AllocError>
        ensures { IfOk result (λ counter. counter.seen ≡ no_counter cores banks every) }
    {
        let counts = EventCounts::new(alloc, cores as usize, banks as usize)?;
        Ok(Counter {
            counts,
            lost: LostCopies::new(alloc),
            rows: RowList::new(alloc),
            every,
            to: None,
            copy: None,
        })
    }

    /// The counts.
    pub fn counts(&self) -> &EventCounts
        ensures { result.now ≡ self.now.seen.counts }
    {
        &self.counts
    }

    /// The rows: the counts as they were after the events that completed `every` operations, twice as many, and so on.
    pub fn rows(&self) -> &[EventCounts]
        ensures { result.now ≡ self.now.seen.rows }
    {
        self.rows.rows()
    }

    /// After how many more operations there is a row.
    pub fn every(&self) -> Option<u64>
        ensures { result ≡ self.now.seen.every }
    {
        self.every
    }

    /// Makes ready for an event that is to come on this machine. There is room for what it may add, a row and a copy
    /// that is lost. Noted are the node that its message goes to, and the copy that it may take.
    pub fn prepare<K: History>(
        &mut self,
        system: &System<K>,
        event: &Event,
    ) -> Result<(), AllocError>
        ensures same { self.new.seen ≡ self.old.seen }
        ensures ready { OnOk result (IsReady self.new system.now event.now) }
    {
        self.lost.reserve()?;
        self.rows.reserve(&self.counts)?;
        self.to = receiver_of_delivery(system, event);
        self.copy = copy_at_risk(system, event);
        Ok(())
    }

    /// Counts the event that it is ready for, of a machine that answered it so (as `System::step_plain` answers) and is
    /// now as it left it. The call allocates nothing.
    #[inline(always)]
    pub fn see<K: History>(
        &mut self,
        system: &System<K>,
        event: &Event,
        plain: &Option<PlainAnswer>,
    )
        requires { (before : Machine) × IsReady self.old before event.now }
        ensures { (before : Machine) → IsReady self.old before event.now →
            self.new.seen ≡ counter_seen self.old.seen before event.now
            (answer_in system.now.records plain.now) system.now }
    {
        self.count_event(system, event, plain);
    }

    // Counts an event by what is noted of it.
    #[inline(always)]
    fn count_event<K: History>(
        &mut self,
        system: &System<K>,
        event: &Event,
        plain: &Option<PlainAnswer>,
    )
        requires room { HasRoom self.old }
        ensures { self.new.seen ≡ counted_on self.old.seen self.old.to self.old.copy event.now
            (answer_in system.now.records plain.now) system.now }
    {
        let sent = system.look(MsgNo(self.counts.messages()));
        self.counts
            .see(&self.lost, self.to, system, event, plain, sent);
        self.lost.see(self.copy, event, system);
        if is_row_due(self.every, system, plain) {
            self.rows.push(&self.counts);
        }
    }
}

// The node that a message goes to.
fn receiver_of_message(message: Option<&Message>) -> Option<Node>
    ensures { result ≡ end_of (option_copied message.entry) }
{
    match message {
        None => None,
        Some(message) => Some(message.to),
    }
}

// The node that a delivery's message goes to.
fn receiver_of_delivery<K: History>(system: &System<K>, event: &Event) -> Option<Node>
    ensures { result ≡ goes_to system.now event.now }
{
    match event {
        Event::Deliver(number) => receiver_of_message(system.look(*number)),
        _ => None,
    }
}

// Whether an answer of a machine completes an operation, and there is to be a row after it.
fn is_row_due<K: History>(
    every: Option<u64>,
    system: &System<K>,
    plain: &Option<PlainAnswer>,
) -> bool
    ensures { result ≡ is_row every (length system.now.records)
        (answer_in system.now.records plain.now) }
{
    let Some(every) = every else {
        return false;
    };
    let completed = system.completed() as u64;
    plain.is_none() && completed > 0 && is_multiple(completed, every)
}

// Whether this number is a multiple of another, which isn't 0.
fn is_multiple(number: u64, of: u64) -> bool
    ensures { result ≡ nat_lt 0 of && (number % of == 0) }
{
    of > 0 && number % of == 0
}
