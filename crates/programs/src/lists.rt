//! Lists of operations and of steps as programs.
ghost use Rattle.std.specs.Prelude.{◌≡◌, ◌≤◌, length};

use crate::program::Program;
use crate::steps::Step;
use physiological_order::Op;
use std::marker::Model;

/// A list of operations, one after the other. Contracts see the operations that are left.
#[derive(Drop)]
pub struct OpProgram {
    ops: Vec<Op>,
    at: usize,
}

impl Model for OpProgram {
    ghost use Rattle.std.specs.Prelude.{◌≤◌, List, drop, length};
    ghost use Rattle.physiological_order.specs.declared.operation.Op.{Op};

    ghost Value = { List Op };

    ghost view = { λ a. drop a.at a.ops.items };

    ghost invariant = { λ a. (a.at ≤ length a.ops.items) × (length a.ops.items ≤ 4294967295) };
}

impl OpProgram {
    /// A program of at most 4,294,967,295 operations.
    pub fn new(ops: Vec<Op>) -> OpProgram
        requires { length ops.items ≤ 4294967295 }
        ensures { result ≡ ops.items }
    {
        OpProgram { ops, at: 0 }
    }

    /// How many operations are left.
    pub fn left(&self) -> u32
        ensures { result ≡ length self.now }
    {
        (self.ops.len() - self.at) as u32
    }
}

impl Program for OpProgram {
    ghost use Rattle.programs.specs.Acts.{first_op, behind_first};

    ghost acts = { record { next = first_op; done = behind_first } };

    fn next(&self) -> Option<Step> {
        match self.ops.get(self.at) {
            Some(op) => Some(Step::Op(*op)),
            None => None,
        }
    }

    fn done(&mut self, _received: Option<u64>) {
        if self.at < self.ops.len() {
            self.at += 1;
        }
    }
}

/// A list of steps, one after the other, which it borrows. Contracts see the steps that are left.
#[derive(Drop)]
pub struct StepProgram<'a> {
    left: &'a [Step],
}

impl<'a> Model for StepProgram<'a> {
    ghost use Rattle.std.specs.Prelude.{List};
    ghost use Rattle.programs.specs.declared.steps.Step.{Step};

    ghost Value = { List Step };

    ghost view = { λ a. a.left.now };
}

impl<'a> StepProgram<'a> {
    /// A program of these steps.
    pub fn new(steps: &'a [Step]) -> StepProgram<'a>
        ensures { result ≡ steps.now }
    {
        StepProgram { left: steps }
    }

    /// How many steps are left.
    pub fn left(&self) -> usize
        ensures { result ≡ length self.now }
    {
        self.left.len()
    }
}

impl<'a> Program for StepProgram<'a> {
    ghost use Rattle.programs.specs.Acts.{first_step, behind_first};

    ghost acts = { record { next = first_step; done = behind_first } };

    fn next(&self) -> Option<Step> {
        self.left.first().copied()
    }

    fn done(&mut self, _received: Option<u64>) {
        if let Some((_, rest)) = self.left.split_first() {
            self.left = rest;
        }
    }
}
