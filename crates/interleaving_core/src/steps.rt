//! One event of the machine.
ghost use Rattle.std.specs.Prelude.{◌≡◌, ◌<◌, IfOk, IsTrue, None, OnErr, false, length};
ghost use Rattle.machine_table.specs.Transition.{on_event, transition};
ghost use Rattle.machine_theorem.specs.Kept.{Invariant};
ghost use Rattle.interleaving_core.specs.LookUps.{delivery_waits, make_room, message_waits};
ghost use Rattle.interleaving_core.specs.PartChanges.{answer_in, answer_of};
ghost use Rattle.interleaving_core.specs.StepAnswers.{Stepped, TakesMemory, asks_memory};

use crate::core_masks::{update_core_masks, update_masks_after_attempt};
use crate::deliveries::deliver_message;
use crate::histories::History;
use crate::machine_state::MachineState;
use crate::operations;
use crate::plain_answer::{PlainAnswer, plain_of, stop_after_plain_answer};
use crate::records::{add_completed_record, stop_if_exhausted};
use machine_table::{Answer, Event, Refusal};
use network::{LineNo, MsgNo};
use physiological_order::Op;
use std::alloc::AllocError;

impl<H: History> MachineState<H> {
    // An operation is opened at a core. Room for its record is reserved here.
    fn issue(&mut self, core: u32, op: Op) -> Result<PlainAnswer, AllocError>
        requires { Invariant self.old }
        ensures done { IfOk result (λ plain. (answer_of plain, self.new) ≡
            on_event self.old (Event.Issue core op)) }
        ensures refused { OnErr result (self.new ≡ self.old) }
        ensures wanted { OnErr result
            (TakesMemory self.old (on_event self.old (Event.Issue core op))) }
    {
        let at = core as usize;
        if at >= self.cores.len() {
            return Ok(PlainAnswer::Refused(Refusal::NoSuch));
        }
        if self.cores[at].open_op().is_some() {
            return Ok(PlainAnswer::Refused(Refusal::Busy));
        }
        if self.cores[at].issued() >= u32::MAX {
            return Ok(PlainAnswer::Refused(Refusal::TooMany));
        }
        self.history.issue(at, &op, self.cores.len())?;
        let _issued = self.cores[at].issue(op);
        update_core_masks(&mut self.masks, core, &self.cores[at]);
        Ok(PlainAnswer::Issued)
    }

    // A core tries to complete its open operation. Where it is completed there is no plain answer: its record is the
    // last one.
    #[inline(always)]
    fn attempt(&mut self, core: u32) -> Option<PlainAnswer>
        requires { Invariant self.old }
        ensures tried { (answer_in self.new.records result, self.new) ≡
            on_event self.old (Event.Attempt core) }
        ensures completed { result ≡ None → 0 < length self.new.records }
    {
        let at = core as usize;
        if at >= self.cores.len() {
            return Some(PlainAnswer::Refused(Refusal::NoSuch));
        }
        let count = self.history.count();
        let answer = operations::attempt_open_operation(
            &mut self.cores[at],
            &mut self.flight,
            core,
            count,
        );
        update_masks_after_attempt(&mut self.masks, core, &answer);
        add_completed_record(&mut self.history, &answer);
        stop_if_exhausted(&mut self.is_stopped, &answer);
        plain_of(&answer)
    }

    // A core's time goes on by one.
    #[inline(always)]
    fn advance(&mut self, core: u32) -> PlainAnswer
        ensures { (answer_of result, self.new) ≡ on_event self.old (Event.Advance core) }
    {
        let at = core as usize;
        if at >= self.cores.len() {
            return PlainAnswer::Refused(Refusal::NoSuch);
        }
        let plain = operations::advance_core_time(&mut self.cores[at]);
        stop_after_plain_answer(&mut self.is_stopped, plain);
        plain
    }

    // A copy of a line leaves a core's cache.
    fn evict_cache(&mut self, core: u32, line: LineNo) -> PlainAnswer
        requires { Invariant self.old }
        ensures { (answer_of result, self.new) ≡
            on_event self.old (Event.EvictCache core line) }
    {
        let at = core as usize;
        if at >= self.cores.len() {
            return PlainAnswer::Refused(Refusal::NoSuch);
        }
        let plain = operations::evict_copy(&mut self.cores[at], &mut self.flight, line);
        stop_after_plain_answer(&mut self.is_stopped, plain);
        plain
    }

    // A line leaves a bank, or is recalled for that.
    fn evict_bank(&mut self, bank: u32, line: LineNo) -> PlainAnswer
        requires { Invariant self.old }
        ensures { (answer_of result, self.new) ≡
            on_event self.old (Event.EvictBank bank line) }
    {
        let at = bank as usize;
        if at >= self.banks.len() {
            return PlainAnswer::Refused(Refusal::NoSuch);
        }
        let plain = operations::evict_entry(&mut self.banks[at], &mut self.flight, line);
        stop_after_plain_answer(&mut self.is_stopped, plain);
        plain
    }

    // A message in flight is delivered. Where `waits` is set it is held, and no line need leave for it.
    #[inline(always)]
    fn deliver(&mut self, number: MsgNo, waits: &mut bool) -> Result<PlainAnswer, AllocError>
        requires kept { Invariant self.old }
        requires not_yet { waits.old ≡ false }
        ensures done { IfOk result (λ plain. (answer_of plain, self.new) ≡
            on_event self.old (Event.Deliver number)) }
        ensures refused { OnErr result (self.new ≡ self.old) }
        ensures wanted { OnErr result
            (TakesMemory self.old (on_event self.old (Event.Deliver number))) }
        ensures store { OnErr result
            (IsTrue (asks_memory self.old (Event.Deliver number))) }
        ensures waits { waits.new ≡ message_waits self.old number }
        ensures told { IsTrue waits.new → make_room self.new number ≡ None }
    {
        deliver_message(
            &mut self.flight,
            number,
            &mut self.cores,
            &mut self.banks,
            &mut self.drams,
            &mut self.masks,
            &mut self.is_stopped,
            waits,
        )
    }

    // The same, as a call: what is placed in line with an event's answer stays short.
    #[inline(never)]
    fn deliver_apart(&mut self, number: MsgNo) -> Result<PlainAnswer, AllocError>
        requires { Invariant self.old }
        ensures done { IfOk result (λ plain. (answer_of plain, self.new) ≡
            on_event self.old (Event.Deliver number)) }
        ensures refused { OnErr result (self.new ≡ self.old) }
        ensures wanted { OnErr result
            (TakesMemory self.old (on_event self.old (Event.Deliver number))) }
        ensures store { OnErr result
            (IsTrue (asks_memory self.old (Event.Deliver number))) }
    {
        let mut waits = false;
        self.deliver(number, &mut waits)
    }

    // What the table answers to the delivery of a message. `waits` is as in `deliver`.
    #[inline(always)]
    fn answer_delivery(
        &mut self,
        number: MsgNo,
        waits: &mut bool,
    ) -> Result<Option<PlainAnswer>, AllocError>
        requires kept { Invariant self.old }
        requires not_yet { waits.old ≡ false }
        ensures done { IfOk result (λ plain. (answer_in self.new.records plain, self.new) ≡
            transition self.old (Event.Deliver number)) }
        ensures refused { OnErr result (self.new ≡ self.old) }
        ensures wanted { OnErr result
            (TakesMemory self.old (transition self.old (Event.Deliver number))) }
        ensures memory { OnErr result
            (IsTrue (asks_memory self.old (Event.Deliver number))) }
        ensures completed { IfOk result (λ plain. plain ≡ None → 0 < length self.new.records) }
        ensures waits { waits.new ≡ delivery_waits self.old (Event.Deliver number) }
        ensures told { IsTrue waits.new → make_room self.new number ≡ None }
    {
        if self.is_stopped {
            return Ok(Some(PlainAnswer::Refused(Refusal::Stopped)));
        }
        Ok(Some(self.deliver(number, waits)?))
    }

    /// The delivery of a message, as `step` makes it. `waits` is as in `deliver`.
    #[inline(always)]
    pub(crate) fn step_delivery(&mut self, number: MsgNo, waits: &mut bool) -> Option<PlainAnswer>
        requires kept { Invariant self.old }
        requires not_yet { waits.old ≡ false }
        ensures stepped { Stepped self.old (Event.Deliver number)
            (answer_in self.new.records result) self.new }
        ensures completed { result ≡ None → 0 < length self.new.records }
        ensures waits { waits.new ≡ delivery_waits self.old (Event.Deliver number) }
        ensures told { IsTrue waits.new → make_room self.new number ≡ None }
    {
        match self.answer_delivery(number, waits) {
            Ok(plain) => plain,
            Err(AllocError) => Some(PlainAnswer::Refused(Refusal::NoMemory)),
        }
    }

    // What the table answers to an event, if there is memory for it.
    #[inline(always)]
    fn answer_event(&mut self, event: Event) -> Result<Option<PlainAnswer>, AllocError>
        requires { Invariant self.old }
        ensures done { IfOk result (λ plain. (answer_in self.new.records plain, self.new) ≡
            transition self.old event) }
        ensures refused { OnErr result (self.new ≡ self.old) }
        ensures wanted { OnErr result (TakesMemory self.old (transition self.old event)) }
        ensures memory { OnErr result (IsTrue (asks_memory self.old event)) }
        ensures completed { IfOk result (λ plain. plain ≡ None → 0 < length self.new.records) }
    {
        if self.is_stopped {
            return Ok(Some(PlainAnswer::Refused(Refusal::Stopped)));
        }
        match event {
            Event::Issue(core, op) => Ok(Some(self.issue(core, op)?)),
            Event::Attempt(core) => Ok(self.attempt(core)),
            Event::Deliver(number) => Ok(Some(self.deliver_apart(number)?)),
            Event::EvictCache(core, line) => Ok(Some(self.evict_cache(core, line))),
            Event::EvictBank(bank, line) => Ok(Some(self.evict_bank(bank, line))),
            Event::Advance(core) => Ok(Some(self.advance(core))),
        }
    }

    /// One event. The answer and the machine afterwards are those of the machine's table. If the table issues an
    /// operation, or answers a DRAM's first store of a line, the answer may be NoMemory instead, and the machine is as
    /// it was.
    #[inline(always)]
    pub(crate) fn step(&mut self, event: Event) -> Option<PlainAnswer>
        requires { Invariant self.old }
        ensures stepped { Stepped self.old event (answer_in self.new.records result) self.new }
        ensures memory { answer_in self.new.records result ≡ Answer.Refused Refusal.NoMemory →
            IsTrue (asks_memory self.old event) }
        ensures completed { result ≡ None → 0 < length self.new.records }
    {
        match self.answer_event(event) {
            Ok(plain) => plain,
            Err(AllocError) => Some(PlainAnswer::Refused(Refusal::NoMemory)),
        }
    }
}
