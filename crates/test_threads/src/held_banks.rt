//! A gate that holds the turns of a bank, and a program that says when it learns of a step: a bank's turn is made while
//! the gate has it under way.
use crate::driver::ONE;
use crate::script::Script;
use physiological_order::Memory;
use programs::{End, Program, Step};
use shared_jobs::Gate;
use std::alloc::{AllocError, Global};
use std::rt::Clock;
use std::sync::atomic::{AtomicU64, Ordering};
use std::test::Fail;
use std::thread;
use std::thread::Threads;
use thread_driver::{ThreadRun, run_threads};

/// A gate of a core, seat 0, and of a bank, seat 1, each with a worker of its own. A turn of the bank neither begins
/// nor ends before three more turns of the core have ended, or the program has learned of a step. The gate keeps the
/// first turn of the bank at whose end that was so.
#[derive(Drop)]
struct HeldBank {
    ended: AtomicU64,
    told: AtomicU64,
    first: AtomicU64,
}

impl HeldBank {
    fn is_told(&self) -> bool {
        self.told.load(Ordering::SeqCst) > 0
    }

    // Three more turns are enough for the core to take a message that the bank has put, and to use it.
    fn hold(&self) {
        let ended = self.ended.load(Ordering::SeqCst).saturating_add(3);
        for _ in 0..10_000_000u32 {
            if self.is_told() || self.ended.load(Ordering::SeqCst) >= ended {
                return;
            }
            thread::yield_now();
        }
    }
}

impl Gate for HeldBank {
    fn before(&self, seat: u64, _turn: u64) {
        if seat == 1 {
            self.hold();
        }
    }

    fn after(&self, seat: u64, turn: u64) {
        if seat == 0 {
            self.ended.fetch_add(1, Ordering::SeqCst);
            return;
        }
        self.hold();
        if self.is_told() && self.first.load(Ordering::SeqCst) == u64::MAX {
            self.first.store(turn, Ordering::SeqCst);
        }
    }
}

/// A script that says that it learned of a step.
#[derive(Drop)]
struct Telling<'a> {
    script: Script,
    gate: &'a HeldBank,
}

impl Program for Telling<'_> {
    ghost use Rattle.test_threads.specs.Scripts.{script_next, script_done};

    ghost acts = { record {
      next = λ w. script_next w.script;
      done = λ w received. record w { script = script_done w.script received };
    } };

    fn next(&self) -> Option<Step> {
        self.script.next()
    }

    fn done(&mut self, received: Option<u64>) {
        self.gate.told.fetch_add(1, Ordering::SeqCst);
        self.script.done(received);
    }
}

// How a run of one store ends that two workers make by the gate.
fn end_by<R: Threads + Clock + Sync>(
    rt: &R,
    alloc: Global,
    gate: &HeldBank,
) -> Result<Option<End>, AllocError> {
    let mut programs = Vec::new(alloc);
    let script = Script {
        word: 0,
        at: 0,
        end: 1,
    };
    programs.push(Telling { script, gate })?;
    let config = ONE;
    if !config.is_good() || programs.len() != config.cores as usize {
        return Ok(None);
    }
    let memory = Memory::new(alloc);
    match run_threads(rt, alloc, config, memory, programs, 2, u32::MAX, gate) {
        Ok(ThreadRun { end, .. }) => Ok(Some(end)),
        Err(error) => Err(error),
    }
}

// The bank loads the line in its first three turns, grants it in its fourth, and puts the answer in its fifth, turn 4.
#[test]
fn a_bank_has_its_turn_while_the_gate_has_it_under_way(rt: HostRuntime) -> Result<(), Fail> {
    let gate = HeldBank {
        ended: AtomicU64::new(0),
        told: AtomicU64::new(0),
        first: AtomicU64::new(u64::MAX),
    };
    let end = end_by(&rt, rt.alloc(), &gate)?;
    assert!(rt; end == Some(End::AllDone) && gate.first.load(Ordering::SeqCst) == 4);
    Ok(())
}
