//! What is counted of one part, and more of one core.
ghost use Rattle.std.specs.Prelude.{◌≡◌};
ghost use Rattle.event_counts.specs.Counts.{asked, completed, reloaded_line, returned_line};
ghost use Rattle.event_counts.specs.Counts.{with_end, with_happening, with_op};

use crate::cause::Cause;
use crate::kind_counts::{KindCounts, increment_count};
use network::Body;
use physiological_order::{Op, Record};

/// What happens at a core and at a bank alike.
#[derive(Drop)]
pub(crate) enum Happening<'a> {
    /// A copy or an entry is evicted.
    Evicted,
    /// A delivery to it is held.
    Held,
    /// A message is delivered to it, and dropped.
    Dropped,
    /// It sends a message with this body, or one is sent to it.
    Sent(&'a Body),
}

/// What is counted of a core and of a bank alike.
#[derive(Clone, Copy, Debug, PartialEq, Eq)]
pub struct PartCounts {
    /// The copies or entries that were evicted.
    pub evictions: u64,
    /// The deliveries to the part that were held.
    pub held: u64,
    /// The deliveries to the part whose message was dropped.
    pub dropped: u64,
    /// The messages that were sent by the part or to it; of a bank, those between it and its DRAM included.
    pub sent: KindCounts,
}

impl PartCounts {
    /// Nothing is counted.
    pub const NONE: PartCounts = PartCounts {
        evictions: 0,
        held: 0,
        dropped: 0,
        sent: KindCounts::NONE,
    };

    // This happens at the part.
    pub(crate) fn count_happening(&mut self, what: &Happening)
        ensures { self.new ≡ with_happening what.now self.old }
    {
        match what {
            Happening::Evicted => self.evictions = increment_count(self.evictions),
            Happening::Held => self.held = increment_count(self.held),
            Happening::Dropped => self.dropped = increment_count(self.dropped),
            Happening::Sent(body) => self.sent.count_message(body),
        }
    }
}

/// What is counted of one core. The operations that completed are `loads`, `stores` and `swaps`; each of them is a hit
/// or has a cause, and the misses are the sum over the causes.
#[derive(Clone, Copy, Debug, PartialEq, Eq)]
pub struct CoreCounts {
    pub loads: u64,
    pub stores: u64,
    pub swaps: u64,
    /// The operations that completed and sent no request.
    pub hits: u64,
    /// The others, by the cause of their first request.
    pub cold: u64,
    pub evicted: u64,
    pub recalled: u64,
    pub ended: u64,
    pub shared: u64,
    /// The cause of the open operation's first request, if one was sent.
    pub asked: Option<Cause>,
    /// The lines that went back because their copies were evicted: the other FlushReps and WbReps answered a recall.
    pub returns: u64,
    /// The ShReps that were sent to the core while it had a copy of the line: renewals with words.
    pub reloads: u64,
    /// The greatest time of an operation that completed; 0 if none did.
    pub last_time: u64,
    /// What is counted of a bank, too.
    pub part: PartCounts,
}

impl CoreCounts {
    /// Nothing is counted.
    pub const NONE: CoreCounts = CoreCounts {
        loads: 0,
        stores: 0,
        swaps: 0,
        hits: 0,
        cold: 0,
        evicted: 0,
        recalled: 0,
        ended: 0,
        shared: 0,
        asked: None,
        returns: 0,
        reloads: 0,
        last_time: 0,
        part: PartCounts::NONE,
    };

    // One more operation of its kind.
    fn count_operation(&mut self, op: &Op)
        ensures { self.new ≡ with_op self.old op.now }
    {
        match *op {
            Op::Load(_) => self.loads = increment_count(self.loads),
            Op::Store(_, _) => self.stores = increment_count(self.stores),
            Op::Swap(_, _) => self.swaps = increment_count(self.swaps),
        }
    }

    // One more hit, or one more miss of the cause that was noted.
    fn count_hit_or_miss(&mut self)
        ensures { self.new ≡ with_end self.old self.old.asked }
    {
        match self.asked {
            None => self.hits = increment_count(self.hits),
            Some(Cause::Cold) => self.cold = increment_count(self.cold),
            Some(Cause::Evicted) => self.evicted = increment_count(self.evicted),
            Some(Cause::Recalled) => self.recalled = increment_count(self.recalled),
            Some(Cause::Ended) => self.ended = increment_count(self.ended),
            Some(Cause::Shared) => self.shared = increment_count(self.shared),
        }
    }

    // An operation completes.
    pub(crate) fn count_completion(&mut self, done: &Record)
        ensures { self.new ≡ completed done.now self.old }
    {
        self.count_hit_or_miss();
        self.count_operation(&done.op);
        self.asked = None;
        self.last_time = self.last_time.max(done.ts);
    }

    // A request is sent: the cause of the first one stays.
    pub(crate) fn note_request(&mut self, cause: Cause)
        ensures { self.new ≡ asked cause self.old }
    {
        if self.asked.is_none() {
            self.asked = Some(cause);
        }
    }

    // An eviction returns its line.
    pub(crate) fn count_returned_line(&mut self)
        ensures { self.new ≡ returned_line self.old }
    {
        self.returns = increment_count(self.returns);
    }

    // Words are sent to the core, which has a copy of their line.
    pub(crate) fn count_reload(&mut self)
        ensures { self.new ≡ reloaded_line self.old }
    {
        self.reloads = increment_count(self.reloads);
    }
}
