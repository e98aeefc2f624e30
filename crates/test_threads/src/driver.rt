//! A machine that is opened, driven by workers, and closed.
ghost use Rattle.std.specs.Prelude.{◌<◌, ◌≤◌};

use crate::script::Script;
use crate::turn_counts::TurnCounts;
use machine_table::Config;
use mailboxes::Run;
use physiological_order::Memory;
use programs::{End, Program, Step};
use std::alloc::{AllocError, Global};
use std::rt::Clock;
use std::thread::Threads;
use thread_driver::ThreadRun;
use worker_driver::run_seats;

/// One core and one bank, with a lease of 10, from time 0 on, and lines of one word.
pub(crate) const ONE: Config = Config {
    cores: 1,
    banks: 1,
    sets: 64,
    ways: 4,
    bank_sets: 256,
    bank_ways: 8,
    line_words: 1,
    lease: 10,
    messages: 4096,
    opening_time: 0,
    private_write: false,
};

/// A machine with a memory of zeros, programs of its first cores, by their words and their places, how many turns each
/// seat may have, and whether those of banks are fair. The other cores have nothing to do.
#[derive(Clone, Copy)]
pub(crate) struct Case {
    pub(crate) config: Config,
    pub(crate) programs: &'static [(u32, u32, u32)],
    pub(crate) turn_limit: u32,
    pub(crate) fair: bool,
}

/// A script that learns of a step only while the gate has a turn of its core's seat under way: else it counts that as
/// wrong.
#[derive(Drop)]
struct Watched<'a> {
    script: Script,
    seat: usize,
    gate: &'a TurnCounts,
}

impl Program for Watched<'_> {
    ghost use Rattle.test_threads.specs.Scripts.{script_next, script_done};

    ghost acts = { record {
      next = λ w. script_next w.script;
      done = λ w received. record w { script = script_done w.script received };
    } };

    fn next(&self) -> Option<Step> {
        self.script.next()
    }

    fn done(&mut self, received: Option<u64>) {
        self.gate.tell(self.gate.is_under_way(self.seat));
        self.script.done(received);
    }
}

fn scripts<'a>(
    alloc: Global,
    case: &Case,
    gate: &'a TurnCounts,
) -> Result<Vec<Watched<'a>>, AllocError> {
    let mut scripts = Vec::new(alloc);
    for core in 0..case.config.cores {
        let (word, at, end) = case
            .programs
            .get(core as usize)
            .copied()
            .unwrap_or((0, 0, 0));
        scripts.push(Watched {
            script: Script { word, at, end },
            seat: core as usize,
            gate,
        })?;
    }
    Ok(scripts)
}

/// How a case ends if this many workers drive it by a gate; none if an allocation failed or there is no such machine.
pub(crate) fn end_of<R: Threads + Clock + Sync>(
    rt: &R,
    alloc: Global,
    case: &Case,
    workers: u32,
    gate: &TurnCounts,
) -> Option<End>
    requires { (0 < workers) × (workers ≤ 16) }
{
    let _inside: Option<Run> = None;
    let scripts = scripts(alloc, case, gate).ok()?;
    let config = case.config;
    if !config.is_good() || scripts.len() != config.cores as usize {
        return None;
    }
    let memory = Memory::new(alloc);
    let (limit, fair) = (case.turn_limit, case.fair);
    match run_seats(
        rt, alloc, config, memory, scripts, workers, limit, fair, gate,
    ) {
        Ok(ThreadRun { end, .. }) => Some(end),
        Err(_) => None,
    }
}
