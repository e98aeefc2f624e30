//! A queue of steps as a program of a core.
ghost use Rattle.std.specs.Prelude.{◌≡◌, ◌==◌, ◌++◌, ◌∷◌, [], ℕ, length, OnErr, OnOk};
ghost use Rattle.trace_reader.specs.Steps.{named};

use crate::step_blocks::Blocks;
use physiological_order::Memory;
use programs::program::Program;
use std::alloc::{AllocError, Global};
use std::marker::Model;
use trace_lines::Step;

/// Adds the word that a step names, if words are asked for. If an allocation fails, nothing changes.
#[tactic(auto, unfolding(crate::specs::Steps::ops_of))]
pub(crate) fn add_word_of_step(
    step: &Step,
    names: bool,
    words: &mut Memory,
) -> Result<(), AllocError>
    ensures named { OnOk result ((core : ℕ) →
        words.new ≡ named names words.old ((core, step.now) ∷ [])) }
    ensures refused { OnErr result (words.new ≡ words.old) }
{
    if !names {
        return Ok(());
    }
    match step {
        Step::Op(op) => words.set(op.addr(), 0),
        Step::Advance => Ok(()),
    }
}

/// Steps that wait, the next one in front; more may come behind them. Contracts see the steps that are left.
#[derive(Drop)]
pub struct StepQueue {
    blocks: Blocks,
    left: usize,
}

impl Model for StepQueue {
    ghost use Rattle.std.specs.Prelude.{◌≡◌, List, length};
    ghost use Rattle.programs.specs.declared.steps.Step.{Step};
    ghost use Rattle.trace_reader.specs.WaitingSteps.{IsTurned, waiting};

    ghost Value = { List Step };

    ghost view = { λ queue. waiting queue.blocks };

    ghost invariant = { λ queue. (queue.left ≡ length (waiting queue.blocks)) × IsTurned queue.blocks };
}

impl StepQueue {
    /// No steps; this allocates nothing yet.
    pub(crate) fn new(alloc: Global) -> StepQueue
        ensures { result ≡ [] }
    {
        StepQueue {
            blocks: Blocks::new(alloc),
            left: 0,
        }
    }

    /// How many steps are left.
    pub fn left(&self) -> usize
        ensures { result ≡ length self.now }
    {
        self.left
    }

    /// Whether no step is left.
    pub fn is_empty(&self) -> bool
        ensures { result ≡ (length self.now == 0) }
    {
        self.left == 0
    }

    /// Puts a step behind those that are left, and adds the word that it names, if words are asked for. If an
    /// allocation fails, nothing changes.
    pub(crate) fn push(
        &mut self,
        step: Step,
        names: bool,
        words: &mut Memory,
    ) -> Result<(), AllocError>
        ensures pushed { OnOk result (self.new ≡ self.old ++ step ∷ []) }
        ensures named { OnOk result ((core : ℕ) →
            words.new ≡ named names words.old ((core, step) ∷ [])) }
        ensures refused { OnErr result ((self.new ≡ self.old) × (words.new ≡ words.old)) }
    {
        let Some(left) = self.left.checked_add(1) else {
            return Err(AllocError);
        };
        self.blocks.make_room()?;
        add_word_of_step(&step, names, words)?;
        self.blocks.push_step(step);
        self.left = left;
        Ok(())
    }
}

impl Program for StepQueue {
    ghost use Rattle.programs.specs.Acts.{first_step, behind_first};

    ghost acts = { record { next = first_step; done = behind_first } };

    fn next(&self) -> Option<Step> {
        self.blocks.first_step()
    }

    fn done(&mut self, _received: Option<u64>) {
        if self.left > 0 {
            self.blocks.take_first_step();
            self.left -= 1;
        }
    }
}
