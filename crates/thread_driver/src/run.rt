//! A run by threads, from the opening of the machine to its end.
ghost use Rattle.std.specs.Prelude.{◌≡◌, ◌<◌, ◌≤◌, false, true, length, IfOk};
ghost use Rattle.machine_table.specs.SetUp.{is_good};
ghost use Rattle.thread_driver.specs.ThreadRuns.{IsRunFrom};

use crate::drive::drive_seats;
use crate::laws::{closed_machines_are_consistent, new_seats_can_be_driven};
use crate::shift::Shift;
use machine_table::Config;
use mailboxes::{Run, open};
use physiological_order::Memory;
use programs::End;
use programs::program::Program;
use shared_jobs::Gate;
use std::alloc::{AllocError, Global};
use std::rt::Clock;
use std::thread::Threads;

/// The result of a run by threads: how it ended, the machine after it was closed, and the programs, in the order of
/// their cores (docs/SCHEDULES.md).
#[derive(Drop)]
pub struct ThreadRun<P: Drop> {
    pub end: End,
    pub run: Run,
    pub programs: Vec<P>,
}

/// Opens a machine with this memory, lets 1 to 16 workers drive its seats with at most `turn_limit` turns each, and
/// closes it. Each core has a program, which gives it its steps. docs/SCHEDULES.md has the order of turns, and the
/// ends. After it the machine is in a reached state, which is consistent (`closed_machines_are_consistent`). The turns
/// that lead from the opened seats to the closed ones decide how it ends; if that is TurnsUsed, each seat had exactly
/// `turn_limit` of them. AllocError if memory to open the machine or to close it can't be allocated.
pub fn run_threads<R: Threads + Clock + Sync, P: Program + Send + Drop, G: Gate + Sync>(
    rt: &R,
    alloc: Global,
    config: Config,
    memory: Memory,
    programs: Vec<P>,
    workers: u32,
    turn_limit: u32,
    gate: &G,
) -> Result<ThreadRun<P>, AllocError>
    requires good { is_good config ≡ true }
    requires programs { length programs.items ≡ config.cores }
    requires workers { (0 < workers) × (workers ≤ 16) }
    ensures set_up { IfOk result (λ r. (r.run.set_up.config ≡ config) ×
        (r.run.set_up.memory ≡ memory)) }
    ensures run { IfOk result (λ r.
        IsRunFrom P.acts false turn_limit programs.items r.run r.programs.items r.end) }
{
    run_seats(
        rt, alloc, config, memory, programs, workers, turn_limit, false, gate,
    )
}

/// Runs as `run_threads` does; with `fair` each turn of a bank is a fair one (`fair_bank_turn`).
pub fn run_seats<R: Threads + Clock + Sync, P: Program + Send + Drop, G: Gate + Sync>(
    rt: &R,
    alloc: Global,
    config: Config,
    memory: Memory,
    programs: Vec<P>,
    workers: u32,
    turn_limit: u32,
    fair: bool,
    gate: &G,
) -> Result<ThreadRun<P>, AllocError>
    requires good { is_good config ≡ true }
    requires programs { length programs.items ≡ config.cores }
    requires workers { (0 < workers) × (workers ≤ 16) }
    ensures set_up { IfOk result (λ r. (r.run.set_up.config ≡ config) ×
        (r.run.set_up.memory ≡ memory)) }
    ensures run { IfOk result (λ r.
        IsRunFrom P.acts fair turn_limit programs.items r.run r.programs.items r.end) }
{
    new_seats_can_be_driven();
    closed_machines_are_consistent();
    let Ok((machine, cores, banks)) = open(alloc, config, memory) else {
        return Err(AllocError);
    };
    let Shift {
        end,
        cores,
        banks,
        programs,
    } = drive_seats(
        rt, alloc, &machine, cores, banks, programs, workers, turn_limit, fair, gate,
    );
    let run = machine.close(alloc, cores, banks)?;
    Ok(ThreadRun { end, run, programs })
}
