//! A core and what it does by itself: it takes an operation, attempts it, raises its time and evicts copies.
ghost use Rattle.std.specs.Prelude.{◌≡◌, ◌≢◌, ◌⊎◌, ◌<◌, ◌≤◌, ◌%◌, ◌^◌, IfOk, IfSome, IsSome};
ghost use Rattle.std.specs.Prelude.{IsTrue, is_some, length, not, true, false, option_copied, option_map, slice_get};
ghost use Rattle.std.specs.Prelude.{IsOk, OnErr, OnOk, None, Some};
ghost use Rattle.std.specs.Result.{result_ok};
ghost use Rattle.line_sets.specs.Geometry.{IsGeometry};
ghost use Rattle.ranked_lines.specs.Rising.{sorted};
ghost use Rattle.line_sets.specs.SetTable.{all_listed};
ghost use Rattle.private_cache.specs.CopyTable.{copy_of, place_for, victim_for, with_used, without_copy};
ghost use Rattle.core_pts.specs.SetUp.{IsInRange};
ghost use Rattle.core_pts.specs.CoreTable.{advance, attempt, attempt_on, attempt_unserved, attempt_without, evict};
ghost use Rattle.core_pts.specs.FreeCopies.{free_copies};
ghost use Rattle.core_pts.specs.OpenCopy.{open_victim, waits_without};
ghost use Rattle.core_pts.specs.CoreTable.{index_of, is_pinned, issue, line_of, need, opened, pinned_line, to_bank};

use crate::attempt::{Attempt, IssueError};
use crate::config::CoreConfig;
use crate::on_copy::{
    completion_time, copy_after_operation, copy_serves_operation, is_exclusive, received_value,
    words_of_copy,
};
use network::{Body, LineNo, Message, Node, quotient, remainder};
use physiological_order::Op;
use private_cache::{Cache, CacheError, Geometry, LineCopy};
use std::alloc::{AllocError, Global};
use std::marker::Model;
use timestamp_manager::Exhausted;

/// A core: its time, the copies of lines in its private cache, and at most one open operation with at most one request
/// out. After `new`, only `reopen`, `keep_order`, `free_copy` and `lines` allocate. Contracts see it as data.
#[derive(Drop)]
pub struct Core {
    config: CoreConfig,
    pts: u64,
    pub(crate) cache: Cache,
    open_op: Option<Op>,
    pub(crate) is_out: bool,
    issued: u32,
    // Whether there is a copy of the open operation's line.
    pub(crate) has_copy: bool,
}

impl Model for Core {
    ghost use Rattle.core_pts.specs.CoreTable.{CoreState};
    ghost use Rattle.std.specs.Prelude.{◌≡◌};
    ghost use Rattle.core_pts.specs.SetUp.{IsSetUp};
    ghost use Rattle.core_pts.specs.OpenCopy.{has_open_copy};

    ghost Value = { CoreState };

    ghost view = { λ a. record {
      number = a.config.number;
      banks = a.config.banks;
      line_words = a.config.line_words;
      lease = a.config.lease;
      private_write = a.config.private_write;
      pts = a.pts;
      cache = a.cache;
      open_op = a.open_op;
      is_out = a.is_out;
      issued = a.issued;
    } };

    ghost invariant = { λ a. IsSetUp a.config.banks a.config.line_words
        × (a.has_copy ≡ has_open_copy a.config.line_words a.cache a.open_op) };
}

impl Core {
    /// A core at its opening time, with an empty cache, no open operation and nothing issued. All its memory is
    /// allocated here.
    pub fn new(alloc: Global, config: CoreConfig, geometry: Geometry) -> Result<Core, AllocError>
        requires config { IsInRange config }
        requires geometry { IsGeometry geometry.sets geometry.ways }
        ensures { IfOk result (λ core. core ≡ opened config geometry) }
    {
        let cache = Cache::new(alloc, geometry)?;
        Ok(Core {
            config,
            pts: config.opening_time,
            cache,
            open_op: None,
            is_out: false,
            issued: 0,
            has_copy: false,
        })
    }

    /// Makes it the core that `new` makes with this set-up. If its cache already has that shape, the call allocates
    /// nothing, and takes time in proportion to the copies that the core had. If an allocation fails, nothing changes.
    pub fn reopen(&mut self, config: CoreConfig, geometry: Geometry) -> Result<(), AllocError>
        requires config { IsInRange config }
        requires geometry { IsGeometry geometry.sets geometry.ways }
        ensures opened { OnOk result (self.new ≡ opened config geometry) }
        ensures refused { OnErr result (self.new ≡ self.old) }
        ensures kept { length self.old.cache.sets ≡ geometry.sets →
            self.old.cache.ways ≡ geometry.ways → IsOk result }
    {
        self.cache.reopen(geometry)?;
        self.config = config;
        self.pts = config.opening_time;
        self.open_op = None;
        self.is_out = false;
        self.issued = 0;
        self.has_copy = false;
        Ok(())
    }

    /// The core's time.
    pub fn pts(&self) -> u64
        ensures { result ≡ self.now.pts }
    {
        self.pts
    }

    /// How many operations the core was issued.
    #[inline(always)]
    pub fn issued(&self) -> u32
        ensures { result ≡ self.now.issued }
    {
        self.issued
    }

    /// The open operation, and whether its request is out.
    #[inline(always)]
    pub fn open_op(&self) -> Option<(Op, bool)>
        ensures { result ≡ option_map (λ op. (op, self.now.is_out)) self.now.open_op }
    {
        match self.open_op {
            Some(op) => Some((op, self.is_out)),
            None => None,
        }
    }

    /// Whether an operation is open, and whether a request is out. This is what `open_op` answers, without the
    /// operation; the call needs no branch.
    #[inline(always)]
    pub fn open_status(&self) -> (bool, bool)
        ensures { result ≡ (is_some self.now.open_op, self.now.is_out) }
    {
        (self.open_op.is_some(), self.is_out)
    }

    /// Whether the open operation's request is out, and there is no copy of its line: an attempt is then answered
    /// Waiting.
    #[inline(always)]
    pub fn is_waiting(&self) -> bool
        ensures value { result ≡ waits_without self.now self.now.open_op }
        ensures waiting { IsTrue result → attempt self.now ≡ (Some Attempt.Waiting, self.now) }
    {
        self.is_out && !self.has_copy && self.open_op.is_some()
    }

    /// The copy of a line.
    #[inline(always)]
    pub fn copy(&self, line: LineNo) -> Option<&LineCopy>
        ensures { option_copied result ≡ copy_of self.now.cache line }
    {
        self.cache.find(line)
    }

    /// The copy to evict to make room for a line: the least recently used one of its set, exactly when there is no
    /// place for the line.
    pub fn victim(&self, line: LineNo) -> Option<LineNo>
        ensures line { result ≡ victim_for self.now.cache line }
        ensures full { is_some result ≡ not (place_for self.now.cache line) }
        ensures there { IfSome result (λ victim. IsSome (copy_of self.now.cache victim)) }
        ensures makes_place { IfSome result
            (λ victim. IsTrue (place_for (without_copy self.now.cache victim) line)) }
    {
        self.cache.victim(line)
    }

    /// The copy to evict to make room for the line of the open operation: `None` if no operation is open, if its line
    /// has a copy, or if there is a place for the line. The call doesn't look for the copy.
    #[inline(always)]
    pub fn open_victim(&self) -> Option<LineNo>
        ensures { result ≡ open_victim self.now self.now.open_op }
    {
        if self.has_copy {
            return None;
        }
        match &self.open_op {
            Some(op) => self.cache.victim_of_absent(self.line_of_word(op)),
            None => None,
        }
    }

    /// The lines of all copies, in rising order.
    pub fn lines(&self) -> Result<Vec<LineNo>, AllocError>
        ensures { IfOk result (λ lines. lines.items ≡ sorted (all_listed (λ _. true)
            self.now.cache.sets)) }
    {
        self.cache.lines()
    }

    /// How many copies may be evicted: all but that of the open operation's line.
    pub fn free_copies(&self) -> usize
        ensures { result ≡ length (free_copies self.now) }
    {
        let copies = self.cache.count();
        if self.has_copy { copies - 1 } else { copies }
    }

    /// The line at an index of the copies that may be evicted, in rising order of their lines.
    pub fn free_copy(&self, at: usize) -> Result<LineNo, AllocError>
        requires { at < length (free_copies self.now) }
        ensures { IfOk result (λ line. slice_get (sorted (free_copies self.now)) at ≡ Some line) }
    {
        self.cache.free_copy(self.pinned_line(), at)
    }

    /// Keeps the lines of all copies in rising order from now on, so that `free_copy` allocates nothing.
    /// `LineSets::keep_order` states what that allocates and moves. If the allocation fails, nothing changes.
    pub fn keep_order(&mut self) -> Result<(), AllocError>
        ensures { self.new ≡ self.old }
    {
        self.cache.keep_order()
    }

    /// Stops keeping the lines in rising order. The memory for that stays.
    pub fn pause_order(&mut self)
        ensures { self.new ≡ self.old }
    {
        self.cache.pause_order();
    }

    /// Stops keeping the lines in rising order, and frees the memory for that.
    pub fn forget_order(&mut self)
        ensures { self.new ≡ self.old }
    {
        self.cache.forget_order();
    }

    /// The line of an operation's word.
    #[inline(always)]
    pub fn line_of(&self, op: Op) -> LineNo
        ensures { result ≡ line_of self.now op }
    {
        self.line_of_word(&op)
    }

    // The line of an operation's word.
    #[inline(always)]
    fn line_of_word(&self, op: &Op) -> LineNo
        ensures { result ≡ line_of self.now op.now }
    {
        LineNo(quotient(op.word(), self.config.line_words as u64))
    }

    // The index in its line of an operation's word.
    #[inline(always)]
    fn index_of(&self, op: &Op) -> usize
        ensures value { result ≡ index_of self.now op.now }
        ensures bound { result < 8 }
    {
        remainder(op.word(), self.config.line_words as u64) as usize
    }

    /// A message of the core about a line to the line's bank, one of the banks that there are.
    #[inline(always)]
    pub fn to_bank(&self, line: LineNo, body: Body) -> Message
        ensures message { result ≡ to_bank self.now line body }
        ensures bank { line % self.now.banks < self.now.banks }
    {
        Message {
            from: Node::Core(self.config.number),
            to: self.bank_of(line),
            line,
            body,
        }
    }

    // The bank of a line.
    #[inline(always)]
    pub(crate) fn bank_of(&self, line: LineNo) -> Node
        ensures node { result ≡ Node.Bank (line % self.now.banks) }
        ensures below { line % self.now.banks < self.now.banks }
    {
        Node::Bank(remainder(line.0, self.config.banks as u64) as u32)
    }

    // How far a lease goes on from a time.
    #[inline(always)]
    pub(crate) fn lease(&self) -> u64
        ensures { result ≡ self.now.lease }
    {
        self.config.lease
    }

    // The line of the open operation.
    #[inline(always)]
    pub(crate) fn pinned_line(&self) -> Option<LineNo>
        ensures { result ≡ pinned_line self.now }
    {
        match self.open_op {
            Some(op) => Some(self.line_of_word(&op)),
            None => None,
        }
    }

    /// Whether the open operation is on a line.
    #[inline(always)]
    pub fn is_pinned(&self, line: LineNo) -> bool
        ensures { result ≡ is_pinned (pinned_line self.now) line }
    {
        self.pinned_line() == Some(line)
    }

    /// Opens an operation. On an error the core is unchanged: Busy exactly when an operation is open, else TooMany
    /// exactly when the core was issued 4,294,967,295 operations.
    #[inline(always)]
    pub fn issue(&mut self, op: Op) -> Result<(), IssueError>
        ensures { (result, self.new) ≡ issue self.old op }
    {
        if let Some(_) = self.open_op {
            return Err(IssueError::Busy);
        }
        if self.issued >= u32::MAX {
            return Err(IssueError::TooMany);
        }
        self.has_copy = self.copy(self.line_of_word(&op)).is_some();
        self.open_op = Some(op);
        self.issued += 1;
        Ok(())
    }

    /// Attempts to complete the open operation. The core is unchanged unless the answer is Completed. Exhausted
    /// exactly when the operation's time would be a sum that does not fit.
    #[inline(always)]
    pub fn attempt(&mut self) -> Result<Attempt, Exhausted>
        ensures { (result_ok result, self.new) ≡ attempt self.old }
    {
        let Some(op) = self.open_op else {
            return Ok(Attempt::Idle);
        };
        if !self.has_copy {
            return Ok(self.answer_without_copy(&op));
        }
        self.attempt_on_copy(&op)
    }

    // The same where there is a copy of the line. What only a completion uses is kept out of the other attempts: they
    // would clear it.
    #[inline(always)]
    fn attempt_on_copy(&mut self, op: &Op) -> Result<Attempt, Exhausted>
        requires there { IsSome (copy_of self.old.cache (line_of self.old op.now)) }
        ensures { (result_ok result, self.new) ≡ attempt_on self.old op.now
            (copy_of self.old.cache (line_of self.old op.now)) }
    {
        let line = self.line_of_word(op);
        let Some(copy) = self.cache.find(line) else {
            unreachable!();
        };
        if !copy_serves_operation(op, self.pts, copy) {
            return Ok(self.answer_unserved_operation(op, copy.wts));
        }
        let Some(ts) = completion_time(self.config.private_write, self.pts, op, copy) else {
            return Err(Exhausted);
        };
        let index = self.index_of(op);
        let received = received_value(index, op, copy);
        let after = copy_after_operation(index, ts, op, copy);
        self.complete(line, after, ts);
        Ok(Attempt::Completed(received, ts))
    }

    // The answer to an attempt without a copy.
    #[inline(always)]
    fn answer_without_copy(&self, op: &Op) -> Attempt
        requires { copy_of self.now.cache (line_of self.now op.now) ≡ None }
        ensures { result ≡ attempt_without self.now op.now }
    {
        if self.is_out {
            return Attempt::Waiting;
        }
        if !self.cache.has_room(self.line_of_word(op)) {
            return Attempt::NoRoom;
        }
        needed_request(self.pts, op, None)
    }

    // The answer to an attempt on a copy of a version that doesn't serve the operation.
    #[inline(always)]
    fn answer_unserved_operation(&self, op: &Op, version: u64) -> Attempt
        ensures { result ≡ attempt_unserved self.now op.now version }
    {
        if self.is_out {
            return Attempt::Waiting;
        }
        needed_request(self.pts, op, Some(version))
    }

    // Closes the open operation at a time: it leaves this copy of its line.
    #[inline(always)]
    fn complete(&mut self, line: LineNo, copy: LineCopy, ts: u64)
        requires { IsSome (copy_of self.old.cache line) }
        ensures { self.new ≡ record self.old {
          pts = ts;
          open_op = None;
          is_out = false;
          cache =
              with_used self.old.cache line copy;
        } }
    {
        self.cache.put(line, copy);
        self.pts = ts;
        self.open_op = None;
        self.is_out = false;
        self.has_copy = false;
    }

    /// Notes that the request of the open operation is out.
    #[inline(always)]
    pub fn requested(&mut self)
        ensures { self.new ≡ record self.old { is_out = true } }
    {
        self.is_out = true;
    }

    /// Raises the core's time by 1. Exhausted exactly when that does not fit; the core is then
    /// unchanged.
    #[inline(always)]
    pub fn advance(&mut self) -> Result<(), Exhausted>
        ensures { (result_ok result, self.new) ≡ advance self.old }
    {
        if self.pts == u64::MAX {
            return Err(Exhausted);
        }
        self.pts += 1;
        Ok(())
    }

    /// Takes out the copy of a line; if the core owns it, the answer is the message that returns the line. On an error
    /// the core is unchanged: NotHere exactly when there is no copy, else Pinned exactly when the open operation is on
    /// the line. The call never answers NoRoom.
    #[inline(always)]
    pub fn evict(&mut self, line: LineNo) -> Result<Option<Message>, CacheError>
        ensures result { (result, self.new) ≡ evict self.old line }
        ensures never { result ≢ Err CacheError.NoRoom }
    {
        let pinned = self.pinned_line();
        let copy = self.cache.evict(line, pinned)?;
        if !is_exclusive(copy.state) {
            return Ok(None);
        }
        Ok(Some(self.to_bank(line, Body::FlushRep(words_of_copy(&copy)))))
    }
}

// The request that an operation needs, by the version of the copy.
#[inline(always)]
fn needed_request(pts: u64, op: &Op, version: Option<u64>) -> Attempt
    ensures { result ≡ need pts op.now version }
{
    match *op {
        Op::Load(_) => Attempt::NeedShared(pts, version),
        Op::Store(_, _) => Attempt::NeedExclusive(version),
        Op::Swap(_, _) => Attempt::NeedExclusive(version),
    }
}
