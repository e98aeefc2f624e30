//! The same operations by rounds, on a machine that isn't shared, and by the seats of one that threads share. The
//! numbers are cores, banks, operations of a core, and threads. The time is that in which a machine is driven; a shared
//! one is opened and closed in it, too.

use crate::loads::{config_of, programs_of};
use interleaving_core::System;
use physiological_order::{Memory, WordAddr};
use programs::{End, OpProgram};
use schedules::{Policy, run_to_end};
use shared_jobs::Free;
use std::alloc::Global;
use std::rt::Clock;
use std::thread::Threads;
use std::time::Instant;
use thread_driver::run_threads;

/// How many operations were completed, and in how many nanoseconds.
#[derive(Clone, Copy)]
pub(crate) struct Told {
    pub(crate) completed: usize,
    pub(crate) nanos: u128,
}

/// Runs the programs to their ends by rounds; `None` if not all is done.
fn driven<R: Clock>(
    rt: &R,
    alloc: Global,
    system: &mut System,
    programs: &mut [OpProgram],
) -> Option<Told> {
    if programs.len() as u64 != u64::from(system.cores()) {
        return None;
    }
    let start = Instant::now(rt).ok()?;
    let end = run_to_end(alloc, system, programs, Policy::Rounds, u32::MAX);
    let nanos = start.elapsed(rt).ok()?.as_nanos();
    match end {
        End::AllDone => Some(Told {
            completed: system.records().len(),
            nanos,
        }),
        _ => None,
    }
}

/// A run by rounds; `None` if it isn't made, or not all is done.
pub(crate) fn rounds<R: Clock>(
    rt: &R,
    alloc: Global,
    [cores, banks, operations, _]: [u32; 4],
) -> Option<Told> {
    let mut programs = programs_of(alloc, cores, operations)?;
    let mut system = System::new(alloc, config_of(cores, banks), Memory::new(alloc)).ok()?;
    driven(rt, alloc, &mut system, &mut programs)
}

/// A run by seats that 1 to 16 threads share; `None` if it isn't made.
pub(crate) fn seats<R: Threads + Sync + Clock>(
    rt: &R,
    alloc: Global,
    numbers: [u32; 4],
) -> Option<Told> {
    run_on(rt, alloc, numbers, Memory::new(alloc))
}

/// The same without operations, on as many words of opening memory as the third number says.
pub(crate) fn opened<R: Threads + Sync + Clock>(
    rt: &R,
    alloc: Global,
    [cores, banks, words, threads]: [u32; 4],
) -> Option<Told> {
    let mut memory = Memory::new(alloc);
    for word in 0..u64::from(words) {
        memory.set(WordAddr::at(word), word).ok()?;
    }
    run_on(rt, alloc, [cores, banks, 0, threads], memory)
}

/// A run by seats on this opening memory.
fn run_on<R: Threads + Sync + Clock>(
    rt: &R,
    alloc: Global,
    [cores, banks, operations, threads]: [u32; 4],
    memory: Memory,
) -> Option<Told> {
    let config = config_of(cores, banks);
    let programs = programs_of(alloc, cores, operations)?;
    if !config.is_good()
        || programs.len() as u64 != u64::from(config.cores)
        || threads == 0
        || threads > 16
    {
        return None;
    }
    let start = Instant::now(rt).ok()?;
    let turns = u32::MAX;
    let ran = run_threads(rt, alloc, config, memory, programs, threads, turns, &Free).ok()?;
    let nanos = start.elapsed(rt).ok()?.as_nanos();
    Some(Told {
        completed: ran.run.records().len(),
        nanos,
    })
}
