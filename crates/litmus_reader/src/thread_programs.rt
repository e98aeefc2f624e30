//! The threads of a litmus test are programs.

use crate::threads::ThreadState;
use programs::{Program, Step};

/// The threads of a litmus test are programs of operations.
impl<'a> Program for ThreadState<'a> {
    ghost use Rattle.litmus_reader.specs.ThreadSteps.{next_operation, done_with};
    ghost use Rattle.programs.specs.Acts.{as_step};

    ghost acts = { record { next = λ thread. as_step (next_operation thread); done = done_with } };

    fn next(&self) -> Option<Step> {
        match ThreadState::next(self) {
            Some(op) => Some(Step::Op(op)),
            None => None,
        }
    }

    fn done(&mut self, received: Option<u64>) {
        ThreadState::done(self, received);
    }
}
