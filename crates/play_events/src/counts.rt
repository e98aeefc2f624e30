//! What a run counts (docs/COUNTS.md): the player makes its events once more, on a machine that opens as the run's own
//! did.

use crate::turns::Turns;
use event_text::{Reply, message_kind_index, message_kind_name};
use interleaving_core::{Answer, Event, Message, MsgNo, Node, Refusal, System};
use physiological_order::{Memory, Op, Record};
use schedules::Policy;
use std::alloc::{AllocError, Global};

/// Messages by kind: how many were sent, and how many of these aren't in flight any more.
#[derive(Clone, Copy)]
struct Mail {
    kinds: [(u64, u64); 14],
}

/// The counts of a core.
#[derive(Clone, Copy)]
struct OfCore {
    loads: u64,
    stores: u64,
    swaps: u64,
    hits: u64,
    misses: u64,
    stale: u64,
    evicted: u64,
    /// The greatest time of its operations.
    time: u64,
    /// Whether a request for its open operation went out.
    has_asked: bool,
    mail: Mail,
}

/// The counts of a bank.
#[derive(Clone, Copy)]
struct OfBank {
    evicted: u64,
    mail: Mail,
}

/// Where a message is counted: its kind, its core if it has one, and its bank.
#[derive(Clone, Copy)]
struct Mark {
    kind: usize,
    core: Option<u32>,
    bank: Option<u32>,
}

/// A run that is made once more, and its counts so far.
#[derive(Drop)]
pub(crate) struct Counted {
    system: System,
    cores: Vec<OfCore>,
    banks: Vec<OfBank>,
    /// By word the greatest time of a store or swap that is completed.
    written: Memory,
    /// The number of the message that will be sent next.
    next: u64,
    turns: Turns,
}

fn increment_count(count: &mut u64) {
    *count = count.saturating_add(1);
}

fn core_of_node(node: Node) -> Option<u32> {
    match node {
        Node::Core(core) => Some(core),
        _ => None,
    }
}

fn bank_of_node(node: Node) -> Option<u32> {
    match node {
        Node::Bank(bank) => Some(bank),
        _ => None,
    }
}

fn mark_of_message(message: &Message) -> Mark {
    Mark {
        kind: message_kind_index(&message.body),
        core: core_of_node(message.from).or(core_of_node(message.to)),
        bank: bank_of_node(message.from).or(bank_of_node(message.to)),
    }
}

impl Mail {
    const NONE: Mail = Mail {
        kinds: [(0, 0); 14],
    };

    /// A message of this kind was sent, or has left the network.
    fn count_message_kind(&mut self, kind: usize, is_sent: bool) {
        let Some(counted) = self.kinds.get_mut(kind) else {
            return;
        };
        if is_sent {
            counted.0 = counted.0.saturating_add(1);
        } else {
            counted.1 = counted.1.saturating_add(1);
        }
    }

    /// Writes the kinds of which some were sent, and how many were sent and delivered.
    fn put_kind_counts(&self, out: &mut Reply) {
        for (kind, (sent, delivered)) in self.kinds.iter().enumerate() {
            if *sent > 0 {
                out.put_named_number(message_kind_name(kind), *sent);
                out.put_number(*delivered);
            }
        }
    }
}

impl OfCore {
    const NONE: OfCore = OfCore {
        loads: 0,
        stores: 0,
        swaps: 0,
        hits: 0,
        misses: 0,
        stale: 0,
        evicted: 0,
        time: 0,
        has_asked: false,
        mail: Mail::NONE,
    };

    /// An operation is completed; `newest` is the greatest time of a write of its word so far.
    fn count_operation(&mut self, record: &Record, newest: u64) {
        match record.op {
            Op::Load(_) => {
                increment_count(&mut self.loads);
                if newest > record.ts {
                    increment_count(&mut self.stale);
                }
            }
            Op::Store(_, _) => increment_count(&mut self.stores),
            Op::Swap(_, _) => increment_count(&mut self.swaps),
        }
        if self.has_asked {
            increment_count(&mut self.misses);
        } else {
            increment_count(&mut self.hits);
        }
        self.has_asked = false;
        self.time = record.ts.max(self.time);
    }

    fn put_core_counts(&self, out: &mut Reply) {
        out.put_named_number("loads", self.loads);
        out.put_named_number("stores", self.stores);
        out.put_named_number("swaps", self.swaps);
        out.put_named_number("hits", self.hits);
        out.put_named_number("misses", self.misses);
        out.put_named_number("stale", self.stale);
        out.put_named_number("evicted", self.evicted);
        out.put_named_number("time", self.time);
        self.mail.put_kind_counts(out);
    }
}

impl OfBank {
    const NONE: OfBank = OfBank {
        evicted: 0,
        mail: Mail::NONE,
    };
}

impl Counted {
    /// A machine that has just opened, whose run follows this schedule.
    pub(crate) fn new(
        alloc: Global,
        system: System,
        policy: Policy,
    ) -> Result<Counted, AllocError> {
        let mut cores = Vec::new(alloc);
        for _ in 0..system.cores() {
            cores.push(OfCore::NONE)?;
        }
        let mut banks = Vec::new(alloc);
        for _ in 0..system.banks() {
            banks.push(OfBank::NONE)?;
        }
        Ok(Counted {
            system,
            cores,
            banks,
            written: Memory::new(alloc),
            next: 0,
            turns: Turns::new(policy),
        })
    }

    /// Where the message of this number is counted, if it is in flight.
    fn mark_of_number(&self, number: u64) -> Option<Mark> {
        Some(mark_of_message(self.system.look(MsgNo(number))?))
    }

    /// A message was sent, or has left the network.
    fn count_message(&mut self, mark: Mark, is_sent: bool) {
        if let Some(core) = mark.core
            && let Some(of) = self.cores.get_mut(core as usize)
        {
            of.mail.count_message_kind(mark.kind, is_sent);
        }
        if let Some(bank) = mark.bank
            && let Some(of) = self.banks.get_mut(bank as usize)
        {
            of.mail.count_message_kind(mark.kind, is_sent);
        }
    }

    fn count_record(&mut self, record: &Record) -> Result<(), AllocError> {
        let word = record.op.addr();
        let newest = self.written.get(word);
        if !matches!(record.op, Op::Load(_)) {
            self.written.set(word, record.ts.max(newest))?;
        }
        if let Some(of) = self.cores.get_mut(record.core as usize) {
            of.count_operation(record, newest);
        }
        Ok(())
    }

    /// The event of a core or a bank sent a request, or evicted a line.
    fn count_request_or_eviction(&mut self, event: &Event) {
        match *event {
            Event::Attempt(core) => {
                if let Some(of) = self.cores.get_mut(core as usize) {
                    of.has_asked = true;
                }
            }
            Event::EvictCache(core, _) => {
                if let Some(of) = self.cores.get_mut(core as usize) {
                    increment_count(&mut of.evicted);
                }
            }
            Event::EvictBank(bank, _) => {
                if let Some(of) = self.banks.get_mut(bank as usize) {
                    increment_count(&mut of.evicted);
                }
            }
            _ => {}
        }
    }

    /// Makes an event, and counts its effects. An event sends one message at most.
    fn make_event(&mut self, event: &Event) -> Result<(), AllocError> {
        let _inside: Option<Op> = None;
        let delivered = match *event {
            Event::Deliver(number) => self.mark_of_number(number.0),
            _ => None,
        };
        self.turns.begin_event(event);
        let answer = self.system.step(*event);
        self.turns.end_event(&self.system, event, &answer);
        match answer {
            Answer::Completed(record) => self.count_record(&record)?,
            Answer::Requested | Answer::Evicted => self.count_request_or_eviction(event),
            Answer::Refused(Refusal::NoMemory) => return Err(AllocError),
            Answer::Delivered | Answer::Dropped => {
                if let Some(mark) = delivered {
                    self.count_message(mark, false);
                }
            }
            _ => {}
        }
        if let Some(mark) = self.mark_of_number(self.next) {
            self.count_message(mark, true);
            self.next = self.next.saturating_add(1);
        }
        Ok(())
    }

    /// Makes the events of the run.
    pub(crate) fn make_events(&mut self, events: &[Event]) -> Result<(), AllocError> {
        for event in events {
            self.make_event(event)?;
        }
        Ok(())
    }

    /// Writes the counts of the run.
    pub(crate) fn put_run_counts(&self, out: &mut Reply) {
        for (core, of) in self.cores.iter().enumerate() {
            out.put_named_number("core", core as u64);
            of.put_core_counts(out);
            out.put_text("; ");
        }
        for (bank, of) in self.banks.iter().enumerate() {
            out.put_named_number("bank", bank as u64);
            out.put_named_number("evicted", of.evicted);
            of.mail.put_kind_counts(out);
            out.put_text("; ");
        }
        out.put_named_number("turns", self.turns.count);
    }
}
