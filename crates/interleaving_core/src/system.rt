//! The machine that users drive, and what is always true of it.
ghost use Rattle.std.specs.Prelude.{◌≡◌, ◌≢◌, ◌≤◌, ◌<◌, ◌-◌, ◌++◌, ◌∷◌, vec_capacity, [], false, true, IfOk, IsErrOf};
ghost use Rattle.std.specs.Prelude.{IfSome, IsSome, IsTrue, None, OnErr, OnOk, length, map};
ghost use Rattle.std.specs.Prelude.{option_copied, slice_get, slice_index_or, List, Some, ℕ};
ghost use Rattle.physiological_order.specs.Order.{flat, Legal, Arrangement, of_core, replay_end};
ghost use Rattle.physiological_order.specs.StaleHits.{RisesByNumber};
ghost use Rattle.physiological_order.specs.declared.operation.Record.{Record};
ghost use Rattle.network.specs.NumberedMessages.{IsRising, at_number};
ghost use Rattle.ranked_lines.specs.Rising.{sorted};
ghost use Rattle.machine_table.specs.SetUp.{SetUpAs, is_good};
ghost use Rattle.machine_table.specs.Machine.{operation_of};
ghost use Rattle.machine_table.specs.Opening.{at_start};
ghost use Rattle.protocol.specs.Issued.{IsIssued};
ghost use Rattle.machine_theorem.specs.Coherence.{owners, coherent};
ghost use Rattle.machine_theorem.specs.Kept.{Invariant};
ghost use Rattle.machine_table.specs.Transition.{transition};
ghost use Rattle.interleaving_core.specs.LookUps.{copies, delivery_waits, entries, free_copies, is_waiting, make_room};
ghost use Rattle.machine_table.specs.Machine.{open_op};
ghost use Rattle.interleaving_core.specs.LookUps.{victim, victim_for_core};
ghost use Rattle.interleaving_core.specs.CoreMasks.{IsMask, is_idle, is_trying};
ghost use Rattle.interleaving_core.specs.Reservation.{completes};
ghost use Rattle.interleaving_core.specs.Midway.{IsMidway};
ghost use Rattle.interleaving_core.specs.PartChanges.{answer_in};
ghost use Rattle.interleaving_core.specs.StepAnswers.{Stepped, Ran, asks_memory};

use crate::histories::{History, KeptHistory};
use crate::machine_state::MachineState;
use crate::plain_answer::PlainAnswer;
use crate::told_history::ToldHistory;
use core_pts::Core;
use dram_mts::Dram;
use llc_bank::Bank;
use machine_table::{Answer, Config, Counts, Event, OpenError, Refusal};
use network::{LineNo, Message, MsgNo};
use physiological_order::{Memory, Op, Record, WordAddr};
use std::alloc::{AllocError, Global};
use std::marker::Model;

/// A machine: its cores, its banks, the DRAM behind each bank and the messages in flight. Contracts see it as data. It
/// is always one that the protocol reaches from an opening, so the contracts of `records`, `owners` and `coherent`
/// hold at every point. It keeps all of its history in memory, or only the last record (`without_history`).
#[derive(Drop)]
pub struct System<H: History = KeptHistory> {
    state: MachineState<H>,
    // Whether its parts were told to keep their lines in rising order.
    has_order: bool,
}

impl<H: History> Model for System<H> {
    ghost use Rattle.std.specs.Coded.{codes, coded_ℕ, coded_list};
    ghost use Rattle.std.specs.FinMap as finite;
    ghost use Rattle.std.specs.Ordering.{nat_cmp};
    ghost use Rattle.machine_table.specs.Machine.{Machine};
    ghost use Rattle.machine_table.specs.SetUp.{is_good};
    ghost use Rattle.machine_theorem.specs.Kept.{Invariant};
    ghost use Rattle.interleaving_core.specs.RecordOrder.{AreNumbered};
    ghost use Rattle.std.specs.Prelude.{◌≡◌, true};

    ghost Value = { Machine };

    ghost coded = { Prim.hlevel (
      codes,
      finite.code {R = nat_cmp} coded_ℕ coded_ℕ,
      finite.code {R = nat_cmp} coded_ℕ (coded_list coded_ℕ),
    ) };

    ghost view = { λ a. a.state };

    // It is well set up, its parts have their shape, and line by line it is one that the protocol reaches; its records
    // stand in the order of their numbers.
    ghost invariant = { λ a. (is_good a.state.config ≡ true) × Invariant a.state × AreNumbered 0 a.state.records };
}

impl System {
    /// A machine with this set-up and this memory. BadConfig exactly if a value of the configuration is out of its
    /// range; on an error the memory is dropped.
    pub fn new(alloc: Global, config: Config, memory: Memory) -> Result<System, OpenError>
        ensures opened { IfOk result (λ system. system ≡ at_start config memory) }
        ensures bad { is_good config ≡ false → IsErrOf result OpenError.BadConfig }
        ensures not_bad { IsErrOf result OpenError.BadConfig → is_good config ≡ false }
    {
        System::open(alloc, config, memory)
    }

    /// The records of the completed operations by number. They are a legal history of the opening memory and of what
    /// the cores were issued. Each core was issued the operations of its records, in their order, and then its open
    /// one.
    pub fn records(&self) -> &[Record]
        ensures records { result.now ≡ self.now.records }
        ensures legal { Legal (flat self.now.opening) (λ core. slice_index_or self.now.issued
            core []) result.now }
        ensures rising { RisesByNumber result.now }
        ensures issued { (core : ℕ) → IsIssued (slice_index_or self.now.issued core [])
            (of_core core self.now.records) (operation_of (slice_get self.now.cores core)) }
    {
        self.records_are_legal();
        &self.state.history.records
    }

    /// The operations that a core was issued, in order; empty for a core that isn't there.
    pub fn issued(&self, core: u32) -> &[Op]
        ensures { result.now ≡ slice_index_or self.now.issued core [] }
    {
        match self.state.history.issued.get(core as usize) {
            Some(ops) => ops.as_slice(),
            None => &[],
        }
    }
}

impl System<ToldHistory> {
    /// The machine that `new` makes, but it keeps no history except the last record. So its memory grows with the lines
    /// of DRAM that it stores, and not with the operations that are done. After each completion `last_record` is the
    /// record of that; `records_are_legal` promises of all of them what `records` does.
    pub fn without_history(
        alloc: Global,
        config: Config,
        memory: Memory,
    ) -> Result<System<ToldHistory>, OpenError>
        ensures opened { IfOk result (λ system. system ≡ at_start config memory) }
        ensures bad { is_good config ≡ false → IsErrOf result OpenError.BadConfig }
        ensures not_bad { IsErrOf result OpenError.BadConfig → is_good config ≡ false }
    {
        System::open(alloc, config, memory)
    }
}

impl<H: History> System<H> {
    // What `new` and `without_history` do.
    fn open(alloc: Global, config: Config, memory: Memory) -> Result<System<H>, OpenError>
        ensures opened { IfOk result (λ system. system ≡ at_start config memory) }
        ensures bad { is_good config ≡ false → IsErrOf result OpenError.BadConfig }
        ensures not_bad { IsErrOf result OpenError.BadConfig → is_good config ≡ false }
    {
        if !config.is_good() {
            return Err(OpenError::BadConfig);
        }
        match MachineState::open(alloc, config, memory) {
            Ok(state) => Ok(System {
                state,
                has_order: false,
            }),
            Err(AllocError) => Err(OpenError::NoMemory),
        }
    }

    /// Makes the machine that `new` makes of its configuration and this memory. Its parts keep the memory that they
    /// have: the call allocates only for lines of DRAM beyond those that it had, and for the list of words. Its time
    /// is in proportion to what was touched since the machine was last made or opened again. If an allocation fails,
    /// the machine is dropped.
    pub fn reopen(self, memory: Memory) -> Result<System<H>, AllocError>
        ensures { IfOk result (λ system. system ≡ at_start self.config memory) }
    {
        let state = self.state.reopen(memory)?;
        Ok(System {
            state,
            has_order: false,
        })
    }

    /// One event. The answer and the machine afterwards are those of the machine's table; or allocation failed, the
    /// answer is NoMemory, and the machine is unchanged. That happens only if the table issues an operation, or
    /// delivers a DRAM's first store of a line: no other event allocates. A message in flight always finds its part,
    /// with a case for it: its delivery is never answered NoSuch.
    #[inline(always)]
    pub fn step(&mut self, event: Event) -> Answer
        ensures stepped { Stepped self.old event result self.new }
        ensures set_up { SetUpAs self.old self.new }
        ensures advanced { (core : ℕ) → event ≡ Event.Advance core →
            result ≢ Answer.Refused Refusal.NoMemory }
        ensures completed { (core : ℕ) → event ≡ Event.Attempt core →
            IfSome (slice_get self.old.cores core) (λ c. IsTrue (completes c) →
            result ≢ Answer.Refused Refusal.NoMemory) }
        ensures memory { result ≡ Answer.Refused Refusal.NoMemory →
            IsTrue (asks_memory self.old event) }
        ensures found { (number : ℕ) → event ≡ Event.Deliver number → IsSome (at_number number
            self.old.mail.messages) →
            result ≢ Answer.Refused Refusal.NoSuch }
    {
        let plain = self.state.step(event);
        self.state.answer_in(plain)
    }

    /// One event, as `step` makes it, with its answer in two bytes: `None` exactly if an operation is completed. The
    /// last record is then that of this operation.
    #[inline(always)]
    pub fn step_plain(&mut self, event: Event) -> Option<PlainAnswer>
        ensures stepped { Stepped self.old event (answer_in self.new.records result) self.new }
        ensures completed { result ≡ None → 0 < length self.new.records }
    {
        self.state.step(event)
    }

    /// Delivers a message, as `step_plain` does, and says whether it is a request of a line that its bank is loading,
    /// recalling or storing: it is held then, and no line need leave the bank for it.
    #[inline(always)]
    pub fn step_delivery(&mut self, number: MsgNo) -> (Option<PlainAnswer>, bool)
        ensures stepped { Stepped self.old (Event.Deliver number)
            (answer_in self.new.records result.0) self.new }
        ensures completed { result.0 ≡ None → 0 < length self.new.records }
        ensures waits { result.1 ≡ delivery_waits self.old (Event.Deliver number) }
        ensures told { IsTrue result.1 → make_room self.new number ≡ None }
    {
        let mut waits = false;
        let plain = self.state.step_delivery(number, &mut waits);
        (plain, waits)
    }

    /// A list of events, one after the other, with their answers. After each beginning of the list the records are a
    /// legal history, a line has at most one owner, each word's coherent value is what the records leave, and words
    /// that the lines don't have are 0; each core was issued the operations of its Issue events that were answered
    /// Issued, in order, and the counts rose by the messages that were sent. Memory for all answers is reserved first:
    /// if that fails, no event happens.
    pub fn run(&mut self, events: &[Event]) -> Result<Vec<Answer>, AllocError>
        ensures ran { IfOk result (λ answers. Ran self.old events.now answers.items self.new) }
        ensures throughout { IfOk result (λ answers. (k : ℕ) → IsMidway self.old events.now
            answers.items self.new k) }
        ensures set_up { SetUpAs self.old self.new }
        ensures refused { OnErr result (self.new ≡ self.old) }
    {
        let mut answers = Vec::with_capacity(self.state.allocator(), events.len())?;
        for event in events {
            let answer = self.step(*event);
            add_answer(&mut answers, answer);
        }
        Ok(answers)
    }

    /// How many cores there are: the machine has that many, and never more than 64.
    pub fn cores(&self) -> u32
        ensures cores { result ≡ self.now.config.cores }
        ensures most { result ≤ 64 }
        ensures count { length self.now.cores ≡ result }
    {
        self.state.config.cores
    }

    /// How many banks there are: the machine has that many, and never more than eight.
    pub fn banks(&self) -> u32
        ensures banks { result ≡ self.now.config.banks }
        ensures most { result ≤ 8 }
        ensures count { length self.now.banks ≡ result }
    {
        self.state.config.banks
    }

    /// How many words a line has: 1 or 8.
    pub fn line_words(&self) -> u32
        ensures words { result ≡ self.now.config.line_words }
        ensures some { 0 < result }
    {
        self.state.config.line_words
    }

    /// The records of the completed operations by number, which the machine may keep or not, are a legal history of the
    /// opening memory and of what the cores were issued. Each core was issued the operations of its records, in their
    /// order, and then its open one. The call does nothing.
    #[inline(always)]
    pub fn records_are_legal(&self)
        ensures legal { Legal (flat self.now.opening) (λ core. slice_index_or self.now.issued
            core []) self.now.records }
        ensures rising { RisesByNumber self.now.records }
        ensures issued { (core : ℕ) → IsIssued (slice_index_or self.now.issued core [])
            (of_core core self.now.records) (operation_of (slice_get self.now.cores core)) }
    {
        // What is always true of a machine is known where a field of it is read.
        let _read = self.has_order;
    }

    /// How many operations have completed: as many as there are records.
    #[inline(always)]
    pub fn completed(&self) -> usize
        ensures { result ≡ length self.now.records }
    {
        self.state.history.count()
    }

    /// The record of the operation that was completed last; `None` before the first one.
    #[inline(always)]
    pub fn last_record(&self) -> Option<&Record>
        ensures { option_copied result ≡ slice_get self.now.records
            (length self.now.records - 1) }
    {
        self.state.history.last()
    }

    /// A word's value where its line now is: with the line's owner, or with its ownership in flight, or else in the
    /// bank, or else in a store on its way to DRAM, or else in DRAM. It is the value that the records leave, one after
    /// the other in the order of their times, on the opening memory.
    pub fn coherent(&self, addr: WordAddr) -> u64
        ensures value { result ≡ coherent self.now addr }
        ensures left { (arranged : List Record) → Arrangement self.now.records arranged →
            result ≡ replay_end (flat self.now.opening) (map (λ r. r.op) arranged) addr }
    {
        self.state.coherent(addr)
    }

    /// How many own a line: the Exclusive copies of it, and the grants and returns of it in flight. At most one does.
    pub fn owners(&self, line: LineNo) -> u32
        ensures owners { result ≡ owners self.now line }
        ensures one { result ≤ 1 }
    {
        self.state.owners(line) as u32
    }

    /// How many renewals, upgrades, flushes and write-backs were sent.
    pub fn counts(&self) -> Counts
        ensures { result ≡ self.now.mail.counts }
    {
        self.state.flight.counts()
    }

    /// Whether an event was answered Exhausted: every later one is answered Stopped.
    pub fn is_stopped(&self) -> bool
        ensures { result ≡ self.now.is_stopped }
    {
        self.state.is_stopped
    }

    /// A core's open operation, and whether its request is out.
    #[inline(always)]
    pub fn open_op(&self, core: u32) -> Option<(Op, bool)>
        ensures { result ≡ open_op self.now core }
    {
        self.state.open_op(core)
    }

    /// Whether the machine isn't stopped, and a core's request is out without a copy of its line here: an attempt is
    /// then answered Waiting, and nothing changes.
    #[inline(always)]
    pub fn is_waiting(&self, core: u32) -> bool
        ensures value { result ≡ is_waiting self.now core }
        ensures waiting { IsTrue result → (Answer.Waiting, self.now) ≡
            transition self.now (Event.Attempt core) }
    {
        self.state.is_waiting(core)
    }

    /// The cores without an open operation: core c is one exactly if bit c is set.
    #[inline(always)]
    pub fn idle_cores(&self) -> u64
        ensures { IsMask result (is_idle self.now) }
    {
        self.state.idle_cores()
    }

    /// The cores with an open operation whose request isn't out, in the same way.
    #[inline(always)]
    pub fn trying_cores(&self) -> u64
        ensures { IsMask result (is_trying self.now) }
    {
        self.state.trying_cores()
    }

    /// The copy to evict from a core's cache to make a place for a line, if there is none: the least recently used one
    /// of the line's set.
    pub fn victim(&self, core: u32, line: LineNo) -> Option<LineNo>
        ensures { result ≡ victim self.now core line }
    {
        self.state.victim(core, line)
    }

    /// The same for the line of a core's open operation; `None` without one. The line is not looked for.
    #[inline(always)]
    pub fn open_victim(&self, core: u32) -> Option<LineNo>
        ensures { result ≡ victim_for_core self.now core (open_op self.now core) }
    {
        self.state.open_victim(core)
    }

    /// The bank and the line to evict from it so that this message, a request that is held because there is no room,
    /// finds room: the least recently used line of the set that no core owns, else the least recently used one. `None`
    /// if the bank has the line or room for it, and if a line of the set is being loaded, recalled or stored.
    #[inline(always)]
    pub fn make_room(&self, number: MsgNo) -> Option<(u32, LineNo)>
        ensures { result ≡ make_room self.now number }
    {
        self.state.make_room(number)
    }

    /// The lines of a core's copies, in rising order; none for a core that isn't there.
    pub fn copies(&self, core: u32) -> Result<Vec<LineNo>, AllocError>
        ensures { IfOk result (λ lines. lines.items ≡ sorted (copies self.now core)) }
    {
        self.state.copies(core)
    }

    /// The lines that a bank has Shared or Exclusive, in rising order; none for a bank that isn't there.
    pub fn entries(&self, bank: u32) -> Result<Vec<LineNo>, AllocError>
        ensures { IfOk result (λ lines. lines.items ≡ sorted (entries self.now bank)) }
    {
        self.state.entries(bank)
    }

    /// How many of a core's copies may be evicted: all but that of its open operation; 0 for a core that isn't there.
    pub fn free_copies(&self, core: u32) -> usize
        ensures { result ≡ length (free_copies self.now core) }
    {
        self.state.free_copies(core)
    }

    /// The line at an index of a core's copies that may be evicted, in rising order of their lines. AllocError only if
    /// the list of the lines can't be allocated.
    pub fn free_copy(&self, core: u32, at: usize) -> Result<LineNo, AllocError>
        requires { at < length (free_copies self.now core) }
        ensures { IfOk result (λ line. slice_get (sorted (free_copies self.now core)) at ≡ Some
            line) }
    {
        self.state.free_copy(core, at)
    }

    /// How many lines a bank has Shared or Exclusive; 0 for a bank that isn't there.
    pub fn settled(&self, bank: u32) -> usize
        ensures { result ≡ length (entries self.now bank) }
    {
        self.state.settled(bank)
    }

    /// The line at an index of those that a bank has Shared or Exclusive, in rising order. AllocError only if the list
    /// of the lines can't be allocated.
    pub fn entry(&self, bank: u32, at: usize) -> Result<LineNo, AllocError>
        requires { at < length (entries self.now bank) }
        ensures { IfOk result (λ line. slice_get (sorted (entries self.now bank)) at ≡ Some line) }
    {
        self.state.entry(bank, at)
    }

    /// From now on each core and each bank keeps its lines in rising order, so that `free_copy` and `entry` allocate
    /// nothing. `line_sets::LineSets::keep_order` states what that allocates, for each core and each bank, and what
    /// moves when a line comes or goes. If an allocation fails, no part keeps its lines so from then on. If the machine
    /// keeps them so already, the call does nothing.
    pub fn keep_order(&mut self) -> Result<(), AllocError>
        ensures { self.new ≡ self.old }
    {
        if self.has_order {
            return Ok(());
        }
        if let Err(error) = self.state.keep_order() {
            self.state.forget_order();
            return Err(error);
        }
        self.has_order = true;
        Ok(())
    }

    /// Whether lines are kept in rising order: `keep_order` answered Ok, and none of `pause_order`, `forget_order`
    /// and `reopen` was called after it. No contract sees that, since no other answer depends on it.
    pub fn keeps_order(&self) -> bool {
        self.has_order
    }

    /// The cores and banks stop keeping their lines in rising order. The memory for that stays, for the next
    /// `keep_order`.
    pub fn pause_order(&mut self)
        ensures { self.new ≡ self.old }
    {
        self.state.pause_order();
        self.has_order = false;
    }

    /// The cores and banks stop keeping their lines in rising order, and free the memory for that.
    pub fn forget_order(&mut self)
        ensures { self.new ≡ self.old }
    {
        self.state.forget_order();
        self.has_order = false;
    }

    /// The core of a number, counted from 0; `None` if there are fewer.
    pub fn core(&self, number: u32) -> Option<&Core>
        ensures { option_copied result ≡ slice_get self.now.cores number }
    {
        self.state.core(number)
    }

    /// The bank of a number, counted from 0; `None` if there are fewer.
    pub fn bank(&self, number: u32) -> Option<&Bank>
        ensures { option_copied result ≡ slice_get self.now.banks number }
    {
        self.state.bank(number)
    }

    /// The DRAM behind the bank of a number; `None` if there is no such bank.
    pub fn dram(&self, number: u32) -> Option<&Dram>
        ensures { option_copied result ≡ slice_get self.now.drams number }
    {
        self.state.dram(number)
    }

    /// The message of a number, if it is in flight.
    pub fn look(&self, number: MsgNo) -> Option<&Message>
        ensures { option_copied result ≡ at_number number self.now.mail.messages }
    {
        self.state.message_in_flight(number)
    }

    /// How many messages are in flight.
    pub fn messages(&self) -> u32
        ensures { result ≡ length self.now.mail.messages }
    {
        self.state.flight.count()
    }

    /// The number of the message at an index of those in flight, in the order in which they were sent; `None` past the
    /// last one.
    pub fn message(&self, at: u32) -> Option<MsgNo>
        ensures { result ≡ slice_get (map (λ m. m.0) self.now.mail.messages) at }
    {
        self.state.flight.nth(at)
    }

    /// The same, for a message that is to be delivered next. The machine notes where it lies, and gives back the room
    /// of messages that were delivered. So its delivery, and then that of those sent after it, one by one, needs no
    /// search.
    pub fn seek_message(&mut self, at: u32) -> Option<MsgNo>
        ensures number { result ≡ slice_get (map (λ m. m.0) self.old.mail.messages) at }
        ensures same { self.new ≡ self.old }
    {
        self.state.seek_message(at)
    }

    /// The numbers of the messages in flight, in rising order.
    pub fn in_flight(&self) -> Result<Vec<MsgNo>, AllocError>
        ensures numbers { IfOk result (λ numbers. numbers.items ≡ map (λ m. m.0)
            self.now.mail.messages) }
        ensures rising { IsRising 0 self.now.mail.messages self.now.mail.next }
    {
        self.state.flight.numbers()
    }

    /// Fills a list with the numbers of the messages in flight, in rising order. It empties the list first, and keeps
    /// the memory that the list has. It allocates only if that is too small for all numbers; if the allocation fails,
    /// the list is empty.
    pub fn list_in_flight(&self, into: &mut Vec<MsgNo>) -> Result<(), AllocError>
        ensures numbers { OnOk result (into.new.items ≡ map (λ m. m.0) self.now.mail.messages) }
        ensures refused { OnErr result (into.new.items ≡ []) }
        ensures wanted { OnErr result (vec_capacity into.old < length self.now.mail.messages) }
        ensures kept { vec_capacity into.old ≤ vec_capacity into.new }
        ensures rising { IsRising 0 self.now.mail.messages self.now.mail.next }
    {
        self.state.flight.list_numbers(into)
    }
}

// An answer is added for which there is a place.
fn add_answer(answers: &mut Vec<Answer>, answer: Answer)
    requires { length answers.old.items < vec_capacity answers.old }
    ensures items { answers.new.items ≡ answers.old.items ++ answer ∷ [] }
    ensures capacity { vec_capacity answers.new ≡ vec_capacity answers.old }
{
    // The types inside an answer are named here for the borrow checker.
    let _inside: (Option<Op>, Option<Record>) = (None, None);
    answers.push_reserved(answer);
}
