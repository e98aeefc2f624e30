//! Steps of a text that are read ahead, into a queue for each core.

ghost use Rattle.std.specs.Prelude.{◌≡◌, ◌<◌, ◌≤◌, ◌≢◌, ◌⊎◌, ◌∷◌, [], ℕ, List, length, nat_lt, replicate};
ghost use Rattle.std.specs.Prelude.{Option, Ok, Err, Some, None, true, false, IsSome};
ghost use Rattle.std.specs.Prelude.{IfOk, IfErr, IfSome, OnErr, OnOk};
ghost use Rattle.std.specs.FinMap.{empty};
ghost use Rattle.byte_streams.specs.Device.{AtEnd};
ghost use Rattle.programs.specs.declared.steps.Step.{Step};
ghost use Rattle.trace_reader.specs.Filling.{AreNeeded, AreTooFew, HasTaken, HasTakenOne, Stops};
ghost use Rattle.trace_reader.specs.Steps.{lane};
ghost use Rattle.trace_reader.specs.Streams.{coming, steps_told, where_known, OnlyFault, Yields};

use crate::queues::{StepQueue, add_word_of_step};
use crate::step_streams::StepStream;
use byte_streams::Source;
use physiological_order::{Memory, Op};
use std::alloc::{AllocError, Global};
use std::marker::Model;
use trace_lines::{Step, TraceError};

/// Why no more steps are read ahead.
#[derive(Clone, Copy, Debug, PartialEq, Eq)]
pub enum AheadError {
    /// A line is refused, or a call of the source failed.
    Text(TraceError),
    /// The line with this number tells a step of a core that has no queue.
    NoQueue(usize),
    /// Allocation failed.
    NoMemory,
}

/// What is read ahead of a text: its reader, a queue of steps for each core, and what was met in all steps that were
/// read so far: the greatest core plus 1, and the words that they name, if those are asked for. The text's source stays
/// its caller's, who gives the same one at each call.
///
/// Nothing of the text is lost if there is an error: the step for which there was no memory, or no queue, stays the
/// next one, and all before it were read.
#[derive(Drop)]
pub struct ReadAhead {
    stream: StepStream,
    queues: Vec<StepQueue>,
    met: u32,
    words: Memory,
    names: bool,
}

impl Model for ReadAhead {
    ghost use Rattle.std.specs.FinMap as finite;
    ghost use Rattle.std.specs.Ordering.{nat_cmp};
    ghost use Rattle.std.specs.Coded.{codes, coded_ℕ};
    ghost use Rattle.trace_reader.specs.Filling.{AheadState};

    ghost Value = { AheadState };

    ghost coded = { Prim.hlevel (codes, finite.code {R = nat_cmp} coded_ℕ coded_ℕ) };

    ghost view = { λ ahead. record {
      stream = ahead.stream;
      queues = ahead.queues.items;
      met = ahead.met;
      words = ahead.words;
      names = ahead.names;
    } };
}

impl ReadAhead {
    ghost use Rattle.std.specs.Borrow.{sem};
    ghost use Rattle.trace_reader.specs.AheadLends.{lends_queues};

    /// No step is read yet. There is a queue for each core below this number, and `names` says whether words are asked
    /// for.
    pub fn new(alloc: Global, cores: u32, names: bool) -> Result<ReadAhead, AllocError>
        // What a source has is all that is to come.
        ensures told { IfOk result (λ ahead. (bytes : List ℕ) →
            coming ahead.stream (Some bytes) ≡ Some (steps_told bytes)) }
        ensures none { IfOk result (λ ahead. (ahead.queues ≡ replicate cores []) × (ahead.met ≡ 0)
            × (ahead.words ≡ empty) × (ahead.names ≡ names)) }
    {
        let mut queues = Vec::with_capacity(alloc, cores as usize)?;
        for _ in 0..cores {
            queues.push(StepQueue::new(alloc))?;
        }
        Ok(ReadAhead {
            stream: StepStream::new(),
            queues,
            met: 0,
            words: Memory::new(alloc),
            names,
        })
    }

    fn cores(&self) -> usize
        ensures { result ≡ length self.now.queues }
    {
        self.queues.len()
    }

    // How many steps a core's queue has; 0 if there is no such queue.
    fn steps_left(&self, core: usize) -> usize
        ensures { result ≡ length (lane self.now.queues core) }
    {
        match self.queues.get(core) {
            Some(queue) => queue.left(),
            None => 0,
        }
    }

    // Puts a step into its core's queue if it is kept, and notes its core. If an allocation fails, nothing changes.
    fn queue_step(&mut self, core: u32, step: Step, keeps: bool) -> Result<(), AllocError>
        requires there { core < length self.old.queues }
        requires few { core < 64 }
        ensures met { OnOk result ((line : ℕ) →
            HasTaken keeps self.old self.new ((line, (core, step)) ∷ [])) }
        ensures stream { self.new.stream ≡ self.old.stream }
        ensures refused { OnErr result (self.new ≡ self.old) }
    {
        if keeps {
            self.queues[core as usize].push(step, self.names, &mut self.words)?;
        } else {
            add_word_of_step(&step, self.names, &mut self.words)?;
        }
        self.met = self.met.max(core + 1);
        Ok(())
    }

    // Takes the step that the stream holds, if it holds one. If there is an error, nothing changes.
    fn take_held_step(&mut self, keeps: bool) -> Result<(), AheadError>
        requires { IsSome self.old.stream.held }
        ensures same { OnErr result (self.new ≡ self.old) }
        ensures one { OnOk result ((bytes : Option (List ℕ)) → HasTakenOne keeps
            (coming self.old.stream bytes) (coming self.new.stream bytes) self.old self.new) }
        ensures taken { OnOk result (self.new.stream.held ≡ None) }
        ensures further { self.new.stream.number ≡ self.old.stream.number }
        ensures stops { IfErr result (λ e. (bytes : Option (List ℕ)) (failures : ℕ) →
            Stops (length self.old.queues) failures failures (coming self.new.stream bytes) e) }
    {
        // The check finds what a step holds only where the function names its type.
        let _inside: Option<Op> = None;
        let Some((core, step)) = self.stream.held_step() else {
            return Ok(());
        };
        if core as usize >= self.queues.len() {
            return Err(AheadError::NoQueue(self.stream.lines_taken()));
        }
        match self.queue_step(core, step, keeps) {
            Ok(()) => {
                let _taken = self.stream.release_step();
                Ok(())
            }
            Err(AllocError) => Err(AheadError::NoMemory),
        }
    }

    // Reads on until the next step is taken, and put into its core's queue if it is kept: whether there was one.
    fn take_next_step<S: Source>(&mut self, source: &mut S, keeps: bool) -> Result<bool, AheadError>
        ensures one { result ≡ Ok true → HasTakenOne keeps
            (coming self.old.stream (S.remaining source.old))
            (coming self.new.stream (S.remaining source.new)) self.old self.new }
        ensures none { result ≢ Ok true → Yields
            (coming self.old.stream (S.remaining source.old))
            (coming self.new.stream (S.remaining source.new)) []
            × HasTaken keeps self.old self.new [] }
        ensures some { result ≡ Ok true → self.new.stream.held ≡ None }
        ensures end { result ≡ Ok false →
            IfSome (S.remaining source.old) (λ known. AtEnd (S.remaining source.new))
            × OnlyFault None (where_known (S.remaining source.old)
            (coming self.new.stream (S.remaining source.new))) }
        ensures further { result ≡ Ok true → (self.old.stream.number ≤ self.new.stream.number)
            × (self.old.stream.held ≡ None → self.old.stream.number < self.new.stream.number) }
        ensures none_failed { OnOk result (S.failures source.new ≡ S.failures source.old) }
        ensures stops { IfErr result (Stops (length self.old.queues) (S.failures source.old)
            (S.failures source.new) (where_known (S.remaining source.old)
            (coming self.new.stream (S.remaining source.new)))) }
    {
        match self.stream.hold_next_step(source) {
            Err(error) => Err(AheadError::Text(error)),
            Ok(false) => Ok(false),
            Ok(true) => {
                self.take_held_step(keeps)?;
                Ok(true)
            }
        }
    }

    // The first queue from this one on that has no step, or a number that no queue has.
    fn next_empty_queue(&self, from: usize) -> usize
        ensures some { (core : ℕ) → from ≤ core → core < result → lane self.now.queues core ≢ [] }
        ensures none { lane self.now.queues result ≡ [] }
    {
        for at in from..self.queues.len() {
            if self.queues[at].is_empty() {
                return at;
            }
        }
        from.max(self.queues.len())
    }

    // Whether steps are left to be read, or there is a queue with this number or a greater one.
    fn needs_more_steps(&self, left: usize, at: usize) -> bool
        ensures more { result ≡ true → (0 < left) ⊎ (at < length self.now.queues) }
        ensures enough { result ≡ false → (left ≡ 0) × (length self.now.queues ≤ at) }
    {
        left > 0 || at < self.queues.len()
    }

    /// Reads on until each queue has a step and this call has read at least `wanted` steps: true, or false if the text
    /// ends before that. The queue with the number n is that of the core n. Each step has to be of a core that has a
    /// queue.
    pub fn fill<S: Source>(&mut self, source: &mut S, wanted: usize) -> Result<bool, AheadError>
        // The steps that were taken stand in their cores' queues, in order, and no more than were asked for.
        ensures filled { (taken : List (ℕ × (ℕ × Step)))
            × Yields (coming self.old.stream (S.remaining source.old))
            (coming self.new.stream (S.remaining source.new)) taken
            × HasTaken true self.old self.new taken × AreNeeded wanted self.old.queues taken
            × (result ≡ Ok true → wanted ≤ length taken)
            × (result ≢ Ok true → AreTooFew wanted self.old.queues taken) }
        ensures all { result ≡ Ok true → (core : ℕ) → core < length self.new.queues →
            lane self.new.queues core ≢ [] }
        ensures end { result ≡ Ok false →
            IfSome (S.remaining source.old) (λ known. AtEnd (S.remaining source.new))
            × OnlyFault None (where_known (S.remaining source.old)
            (coming self.new.stream (S.remaining source.new))) }
        ensures none_failed { OnOk result (S.failures source.new ≡ S.failures source.old) }
        ensures stops { IfErr result (Stops (length self.old.queues) (S.failures source.old)
            (S.failures source.new) (where_known (S.remaining source.old)
            (coming self.new.stream (S.remaining source.new)))) }
    {
        let mut left = wanted;
        let mut at = self.next_empty_queue(0);
        'steps: while self.needs_more_steps(left, at) {
            if !self.take_next_step(source, true)? {
                return Ok(false);
            }
            left = left.saturating_sub(1);
            at = self.next_empty_queue(at);
        }
        Ok(true)
    }

    /// Reads to the end of the text, and queues nothing: whether there was a step. Each step has to be of a core that
    /// has a queue, as in `fill`.
    pub fn skip<S: Source>(&mut self, source: &mut S) -> Result<bool, AheadError>
        ensures skipped { (taken : List (ℕ × (ℕ × Step)))
            × Yields (coming self.old.stream (S.remaining source.old))
            (coming self.new.stream (S.remaining source.new)) taken
            × HasTaken false self.old self.new taken
            × IfOk result (λ some. some ≡ nat_lt 0 (length taken)) }
        ensures end { OnOk result
            (IfSome (S.remaining source.old) (λ known. AtEnd (S.remaining source.new))
            × OnlyFault None (where_known (S.remaining source.old)
            (coming self.new.stream (S.remaining source.new)))) }
        ensures none_failed { OnOk result (S.failures source.new ≡ S.failures source.old) }
        ensures stops { IfErr result (Stops (length self.old.queues) (S.failures source.old)
            (S.failures source.new) (where_known (S.remaining source.old)
            (coming self.new.stream (S.remaining source.new)))) }
    {
        let mut some = false;
        'steps: while self.take_next_step(source, false)? {
            some = true;
        }
        Ok(some)
    }

    /// The queues, one for each core: a run takes steps out of them. Nothing else changes.
    pub fn queues(&mut self) -> &mut [StepQueue]
        ensures* takes_back { sem 𝓛 (lends_queues self.entry result) }
        ensures value { result.now ≡ self.old.queues }
    {
        &mut self.queues
    }

    /// How many steps the shortest queue has; 0 if there is no queue.
    pub fn shortest(&self) -> usize
        ensures least { (core : ℕ) → core < length self.now.queues →
            result ≤ length (lane self.now.queues core) }
        ensures one { 0 < length self.now.queues → (core : ℕ) × (core < length self.now.queues)
            × (result ≡ length (lane self.now.queues core)) }
        ensures none { self.now.queues ≡ [] → result ≡ 0 }
    {
        let cores = self.cores();
        if cores == 0 {
            return 0;
        }
        let mut shortest = self.steps_left(0);
        for at in 1..cores {
            shortest = shortest.min(self.steps_left(at));
        }
        shortest
    }

    /// Whether no queue has a step.
    pub fn are_empty(&self) -> bool
        ensures all { result ≡ true → (core : ℕ) → lane self.now.queues core ≡ [] }
        ensures one { result ≡ false → (core : ℕ) × (core < length self.now.queues)
            × (lane self.now.queues core ≢ []) }
    {
        for at in 0..self.queues.len() {
            if !self.queues[at].is_empty() {
                return false;
            }
        }
        true
    }

    /// The greatest core of a step that was read, plus 1; 0 before the first.
    pub fn met(&self) -> u32
        ensures { result ≡ self.now.met }
    {
        self.met
    }

    /// The words that the steps that were read name, each with a 0; none if they aren't asked for.
    pub fn words(&self) -> &Memory
        ensures { result.now ≡ self.now.words }
    {
        &self.words
    }
}
