//! A program of one's own: a core waits for a flag, and then loads a message.
ghost use Rattle.std.specs.Prelude.{IfOk, IfSome};
ghost use Rattle.guide_uses.specs.Passing.{IsPassed};

use crate::drive::TWO_CORES;
use interleaving_core::{OpenError, System};
use machine_theorem::laws::every_history_is_legal;
use physiological_order::{Memory, Op, WordAddr};
use programs::{Program, Step};
use schedules::drive_round;
use std::alloc::Global;

/// What a core does next.
#[derive(Clone, Copy, Debug, PartialEq, Eq)]
pub enum Thread {
    /// Stores the message 42 to word 0.
    StoreMessage,
    /// Stores 1 to word 1: the flag is up.
    StoreFlag,
    /// Loads the flag.
    LoadFlag,
    /// Advances its time. Without that it could read its old copy of the flag for ever.
    Wait,
    /// Loads the message.
    LoadMessage,
    /// Nothing more. This is what it received last.
    Over(Option<u64>),
}

impl Program for Thread {
    ghost use Rattle.guide_uses.specs.Passing.{thread_done, thread_next};

    ghost acts = { record { next = thread_next; done = thread_done } };

    fn next(&self) -> Option<Step> {
        match self {
            Thread::StoreMessage => Some(Step::Op(Op::Store(WordAddr::at(0), 42))),
            Thread::StoreFlag => Some(Step::Op(Op::Store(WordAddr::at(1), 1))),
            Thread::LoadFlag => Some(Step::Op(Op::Load(WordAddr::at(1)))),
            Thread::Wait => Some(Step::Advance),
            Thread::LoadMessage => Some(Step::Op(Op::Load(WordAddr::at(0)))),
            Thread::Over(_) => None,
        }
    }

    fn done(&mut self, received: Option<u64>) {
        *self = match *self {
            Thread::StoreMessage => Thread::StoreFlag,
            Thread::LoadFlag => match received {
                Some(1) => Thread::LoadMessage,
                _ => Thread::Wait,
            },
            Thread::Wait => Thread::LoadFlag,
            _ => Thread::Over(received),
        };
    }
}

/// Core 0 stores the message and puts the flag up, and core 1 waits for the flag. What core 1 received as the message,
/// if it is over after 1,000 rounds.
pub fn pass_message(alloc: Global) -> Result<Option<u64>, OpenError>
    ensures { IfOk result (λ message. IfSome message IsPassed) }
{
    every_history_is_legal();
    let mut system = System::new(alloc, TWO_CORES, Memory::new(alloc))?;
    let mut threads = [Thread::StoreMessage, Thread::LoadFlag];
    let _driven = drive_round(alloc, &mut system, &mut threads, 1000);
    match threads[1] {
        Thread::Over(message) => Ok(message),
        _ => Ok(None),
    }
}
