//! The counts of a run.
ghost use Rattle.std.specs.Prelude.{◌≡◌, IfOk, IsTrue, None, Option, Some, option_copied};
ghost use Rattle.network.specs.declared.message.Node.{Node};
ghost use Rattle.machine_table.specs.declared.event.Event.{Event};
ghost use Rattle.machine_table.specs.Machine.{Machine};
ghost use Rattle.interleaving_core.specs.PartChanges.{answer_in};
ghost use Rattle.event_counts.specs.Counts.{asked, at_bank, at_core, at_node, completed, dropped, held, in_part};
ghost use Rattle.event_counts.specs.Counts.{no_counts, reloaded_line, returned_line, sent, with_happening};
ghost use Rattle.event_counts.specs.Losses.{Lost};
ghost use Rattle.event_counts.specs.Counting.{FitsIn, answered, evicted, reloaded};
ghost use Rattle.event_counts.specs.Counting.{reloaded_at, requested, returned_by, seen, with_message};

use crate::cause::{Cause, cause_of};
use crate::kind_counts::increment_count;
use crate::lost_copies::{LostCopies, has_copy};
use crate::part_counts::{CoreCounts, Happening, PartCounts};
use interleaving_core::{Event, History, PlainAnswer, System};
use network::{Body, LineNo, Message, MsgNo, Node};
use physiological_order::Record;
use std::alloc::{AllocError, Global};
use std::marker::Model;

/// The counts of a run: of each core, of each bank, and of all. A count stays at 2^64 - 1 once it is there. Contracts
/// see them as data.
#[derive(Drop)]
pub struct EventCounts {
    cores: Vec<CoreCounts>,
    banks: Vec<PartCounts>,
    events: u64,
    held: u64,
    dropped: u64,
    next: u64,
}

impl Model for EventCounts {
    ghost use Rattle.event_counts.specs.Counts.{EventCounts};

    ghost Value = { EventCounts };

    ghost view = { λ a. record {
      cores = a.cores.items;
      banks = a.banks.items;
      events = a.events;
      held = a.held;
      dropped = a.dropped;
      next = a.next;
    } };
}

impl EventCounts {
    // The counts of a machine that has just opened, with this number of cores and banks: nothing is counted. All
    // memory is allocated here.
    pub(crate) fn new(alloc: Global, cores: usize, banks: usize) -> Result<EventCounts, AllocError>
        ensures { IfOk result (λ counts. counts ≡ no_counts cores banks) }
    {
        let cores = vec![in alloc; CoreCounts::NONE; cores]?;
        let banks = vec![in alloc; PartCounts::NONE; banks]?;
        Ok(EventCounts {
            cores,
            banks,
            events: 0,
            held: 0,
            dropped: 0,
            next: 0,
        })
    }

    // Counts of as many cores and banks.
    pub(crate) fn of_this_size(&self, alloc: Global) -> Result<EventCounts, AllocError>
        ensures { IfOk result (λ counts. FitsIn self.now (Some counts)) }
    {
        EventCounts::new(alloc, self.cores.len(), self.banks.len())
    }

    // Whether these have as many cores and banks.
    pub(crate) fn is_of_this_size(&self, other: &EventCounts) -> bool
        ensures { IsTrue result → FitsIn self.now (Some other.now) }
    {
        other.cores.len() == self.cores.len() && other.banks.len() == self.banks.len()
    }

    // Becomes a copy of counts of as many cores and banks.
    pub(crate) fn copy_from(&mut self, other: &EventCounts)
        requires { FitsIn other.now (Some self.old) }
        ensures { self.new ≡ other.now }
    {
        self.cores.copy_from_slice(&other.cores);
        self.banks.copy_from_slice(&other.banks);
        self.events = other.events;
        self.held = other.held;
        self.dropped = other.dropped;
        self.next = other.next;
    }

    // Counts an event of a machine, which answered it so (as `System::step_plain` answers), is now as it left it, and
    // sent this message for it. A delivery's message went to this node.
    #[inline(always)]
    pub(crate) fn see<K: History>(
        &mut self,
        lost: &LostCopies,
        to: Option<Node>,
        system: &System<K>,
        event: &Event,
        plain: &Option<PlainAnswer>,
        message: Option<&Message>,
    )
        ensures { self.new ≡ seen self.old lost.now.lost to event.now
            (answer_in system.now.records plain.now) system.now (option_copied message.entry) }
    {
        self.events = increment_count(self.events);
        self.see_answer(lost, to, system, event, plain);
        self.see_sent_by(system, event, message);
    }

    // Counts what an answer says.
    #[inline(always)]
    fn see_answer<K: History>(
        &mut self,
        lost: &LostCopies,
        to: Option<Node>,
        system: &System<K>,
        event: &Event,
        plain: &Option<PlainAnswer>,
    )
        ensures { self.new ≡ answered self.old lost.now.lost to event.now
            (answer_in system.now.records plain.now) system.now }
    {
        match plain {
            None => self.see_completed(system),
            Some(PlainAnswer::Requested) => self.see_requested(lost, system, event),
            Some(PlainAnswer::Evicted) => self.see_evicted(event),
            Some(PlainAnswer::Held) => self.see_held(to),
            Some(PlainAnswer::Dropped) => self.see_dropped(to),
            _ => (),
        }
    }

    // Counts the completion of the operation that the last record is of.
    #[inline(always)]
    fn see_completed<K: History>(&mut self, system: &System<K>)
        ensures { (lost : Lost) (to : Option Node) (event : Event) (after : Machine) →
            self.new ≡ answered self.old lost to event (answer_in system.now.records None) after }
    {
        if let Some(done) = system.last_record() {
            self.count_completion(done);
        }
    }

    // Counts an operation that completes.
    fn count_completion(&mut self, done: &Record)
        ensures { self.new ≡ at_core self.old done.now.core (completed done.now) }
    {
        let core = done.core as usize;
        if core < self.cores.len() {
            self.cores[core].count_completion(done);
        }
    }

    // Counts an attempt that sent a request.
    fn see_requested<K: History>(&mut self, lost: &LostCopies, system: &System<K>, event: &Event)
        ensures { self.new ≡ requested self.old lost.now.lost system.now event.now }
    {
        if let Event::Attempt(core) = event {
            self.note_request(*core, cause_of(lost, system, *core));
        }
    }

    // A core's request has this cause.
    fn note_request(&mut self, core: u32, cause: Cause)
        ensures { self.new ≡ at_core self.old core (asked cause) }
    {
        let at = core as usize;
        if at < self.cores.len() {
            self.cores[at].note_request(cause);
        }
    }

    // Counts an eviction.
    fn see_evicted(&mut self, event: &Event)
        ensures { self.new ≡ evicted self.old event.now }
    {
        match event {
            Event::EvictCache(core, _) => self.count_at_node(
                Node::Core(*core),
                &Happening::Evicted,
            ),
            Event::EvictBank(bank, _) => self.count_at_node(Node::Bank(*bank), &Happening::Evicted),
            _ => (),
        }
    }

    // Counts a delivery to a node that is held.
    fn see_held(&mut self, to: Option<Node>)
        ensures { self.new ≡ held self.old to }
    {
        self.held = increment_count(self.held);
        if let Some(to) = to {
            self.count_at_node(to, &Happening::Held);
        }
    }

    // Counts a delivery to a node whose message is dropped.
    fn see_dropped(&mut self, to: Option<Node>)
        ensures { self.new ≡ dropped self.old to }
    {
        self.dropped = increment_count(self.dropped);
        if let Some(to) = to {
            self.count_at_node(to, &Happening::Dropped);
        }
    }

    // Something happens at a node.
    fn count_at_node(&mut self, node: Node, what: &Happening)
        ensures { self.new ≡ at_node self.old node (with_happening what.now) }
    {
        match node {
            Node::Core(core) => self.count_at_core(core, what),
            Node::Bank(bank) => self.count_at_bank(bank, what),
            Node::Dram(_) => (),
        }
    }

    // Something happens at a core.
    fn count_at_core(&mut self, core: u32, what: &Happening)
        ensures { self.new ≡ at_core self.old core (in_part (with_happening what.now)) }
    {
        let at = core as usize;
        if at < self.cores.len() {
            self.cores[at].part.count_happening(what);
        }
    }

    // Something happens at a bank.
    fn count_at_bank(&mut self, bank: u32, what: &Happening)
        ensures { self.new ≡ at_bank self.old bank (with_happening what.now) }
    {
        let at = bank as usize;
        if at < self.banks.len() {
            self.banks[at].count_happening(what);
        }
    }

    // Counts the message that an event sent, if any.
    fn see_sent_by<K: History>(
        &mut self,
        system: &System<K>,
        event: &Event,
        message: Option<&Message>,
    )
        ensures { self.new ≡ with_message self.old system.now event.now
            (option_copied message.entry) }
    {
        if let Some(message) = message {
            self.see_message(system, event, message);
        }
    }

    // Counts the message that an event sent.
    fn see_message<K: History>(&mut self, system: &System<K>, event: &Event, message: &Message)
        ensures { self.new ≡ with_message self.old system.now event.now (Some message.now) }
    {
        self.see_sent(message);
        self.see_reloaded_words(system, message);
        if let Event::EvictCache(core, _) = event {
            self.see_returned_line(*core, &message.body);
        }
    }

    // A core that evicts a copy sends a message.
    fn see_returned_line(&mut self, core: u32, body: &Body)
        ensures { self.new ≡ returned_by self.old core body.now }
    {
        match body {
            Body::FlushRep(_) => self.count_returned_line(core),
            Body::WbRep(_) => self.count_returned_line(core),
            _ => (),
        }
    }

    // A core's eviction returns the line.
    fn count_returned_line(&mut self, core: u32)
        ensures { self.new ≡ at_core self.old core returned_line }
    {
        let at = core as usize;
        if at < self.cores.len() {
            self.cores[at].count_returned_line();
        }
    }

    // Counts words that are sent to a core that has a copy of their line.
    fn see_reloaded_words<K: History>(&mut self, system: &System<K>, message: &Message)
        ensures { self.new ≡ reloaded self.old system.now message.now.to message.now.line
            message.now.body }
    {
        if let Node::Core(core) = message.to {
            if let Body::ShRep(_) = message.body {
                self.count_reload(system, core, message.line);
            }
        }
    }

    // Words of a line are sent to a core.
    fn count_reload<K: History>(&mut self, system: &System<K>, core: u32, line: LineNo)
        ensures { self.new ≡ reloaded_at self.old system.now core line }
    {
        let at = core as usize;
        if has_copy(system, core, line) && at < self.cores.len() {
            self.cores[at].count_reload();
        }
    }

    // Counts a message that was sent.
    fn see_sent(&mut self, message: &Message)
        ensures { self.new ≡ sent self.old message.now }
    {
        self.next = increment_count(self.next);
        self.count_at_node(message.from, &Happening::Sent(&message.body));
        self.count_at_node(message.to, &Happening::Sent(&message.body));
    }

    /// The counts of the cores, by number.
    pub fn cores(&self) -> &[CoreCounts]
        ensures { result.now ≡ self.now.cores }
    {
        &self.cores
    }

    /// The counts of the banks, by number.
    pub fn banks(&self) -> &[PartCounts]
        ensures { result.now ≡ self.now.banks }
    {
        &self.banks
    }

    /// How many events were seen.
    pub fn events(&self) -> u64
        ensures { result ≡ self.now.events }
    {
        self.events
    }

    /// How many of them were deliveries that were held.
    pub fn held(&self) -> u64
        ensures { result ≡ self.now.held }
    {
        self.held
    }

    /// How many of them were deliveries whose message was dropped.
    pub fn dropped(&self) -> u64
        ensures { result ≡ self.now.dropped }
    {
        self.dropped
    }

    /// How many messages were sent.
    pub fn messages(&self) -> u64
        ensures { result ≡ self.now.next }
    {
        self.next
    }
}
