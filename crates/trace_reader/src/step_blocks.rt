//! Steps that wait, in blocks: no step is ever copied to another place.
ghost use Rattle.std.specs.Prelude.{◌≡◌, ◌≢◌, ◌<◌, ◌++◌, ◌∷◌, [], ℕ, Option, vec_capacity, vec_len, OnOk};
ghost use Rattle.programs.specs.Acts.{behind_first, first_step};
ghost use Rattle.trace_reader.specs.WaitingSteps.{IsTurned, waiting};

use crate::packed_steps::PackedStep;
use physiological_order::Op;
use std::alloc::{AllocError, Global};
use std::collections::VecDeque;
use std::marker::Model;
use std::mem;
use trace_lines::Step;

// How many steps a block has: 16 KB.
const STEPS: usize = 1_024;

/// A block with a step. Contracts see its steps.
#[derive(Drop)]
pub(crate) struct FullBlock {
    steps: Vec<PackedStep>,
}

impl Model for FullBlock {
    ghost use Rattle.std.specs.Prelude.{◌<◌, List, length};
    ghost use Rattle.programs.specs.declared.steps.Step.{Step};

    ghost Value = { List Step };

    ghost view = { λ block. block.steps.items };

    ghost invariant = { λ block. 0 < length block.steps.items };
}

/// Steps in blocks, the next one in front. A block is freed, or used again, as soon as its last step was taken.
#[derive(Drop)]
pub(crate) struct Blocks {
    alloc: Global,
    // The block of the next step, and how many of its steps were taken.
    front: Vec<PackedStep>,
    taken: usize,
    // The blocks between, in order.
    full: VecDeque<FullBlock>,
    // The block that takes more steps.
    back: Vec<PackedStep>,
}

impl Blocks {
    /// No steps; this allocates nothing yet.
    pub(crate) fn new(alloc: Global) -> Blocks
        ensures { waiting result ≡ [] }
    {
        Blocks {
            alloc,
            front: Vec::new(alloc),
            taken: 0,
            full: VecDeque::new(alloc),
            back: Vec::new(alloc),
        }
    }

    /// The next step.
    pub(crate) fn first_step(&self) -> Option<Step>
        requires { IsTurned self.now }
        ensures { result ≡ first_step (waiting self.now) }
    {
        match self.front.get(self.taken) {
            Some(packed) => Some(packed.step()),
            None => None,
        }
    }

    // Goes on to the next block if no step is left in the first one: to the first of those between or, if there is
    // none, to the last, whose place the emptied one takes.
    fn replace_emptied_front(&mut self)
        ensures same { waiting self.new ≡ waiting self.old }
        ensures turned { IsTurned self.new }
    {
        if self.taken < self.front.len() {
            return;
        }
        self.taken = 0;
        match self.full.pop_front() {
            Some(block) => self.front = block.steps,
            None => {
                mem::swap(&mut self.front, &mut self.back);
                self.back.clear();
            }
        }
    }

    /// Takes the next step.
    pub(crate) fn take_first_step(&mut self)
        requires turned { IsTurned self.old }
        requires some { waiting self.old ≢ [] }
        ensures waiting { (received : Option ℕ) →
            waiting self.new ≡ behind_first (waiting self.old) received }
        ensures turned { IsTurned self.new }
    {
        self.taken += 1;
        self.replace_emptied_front();
    }

    /// Makes room for a step. If the last block is full, another one begins behind it. If an allocation fails, nothing
    /// changes.
    pub(crate) fn make_room(&mut self) -> Result<(), AllocError>
        ensures same { waiting self.new ≡ waiting self.old }
        ensures turned { IsTurned self.old → IsTurned self.new }
        ensures room { OnOk result (vec_len self.new.back < vec_capacity self.new.back) }
    {
        if self.back.len() < self.back.capacity() {
            return Ok(());
        }
        let block = Vec::with_capacity(self.alloc, STEPS)?;
        if self.back.is_empty() {
            self.back = block;
            return Ok(());
        }
        self.full.reserve(1)?;
        let steps = mem::replace(&mut self.back, block);
        self.full.push_back_reserved(FullBlock { steps });
        Ok(())
    }

    /// Puts a step behind those that wait, where there is room for it.
    pub(crate) fn push_step(&mut self, step: Step)
        requires room { vec_len self.old.back < vec_capacity self.old.back }
        ensures waiting { waiting self.new ≡ waiting self.old ++ step ∷ [] }
        ensures turned { IsTurned self.new }
    {
        // The check finds what a step holds only where the function names its type.
        let _inside: Option<Op> = None;
        self.back.push_reserved(PackedStep::new(step));
        self.replace_emptied_front();
    }
}
