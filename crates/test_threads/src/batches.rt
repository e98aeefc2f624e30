//! Batches of runs of store buffering by seeds: the same list by any number of workers, and two workers that run at the
//! same time.
ghost use Rattle.std.specs.Prelude.{◌<◌, ◌≤◌};

use crate::turn_counts::{Calls, TurnCounts};
use litmus_reader::read;
use run_options::MachineOptions;
use std::alloc::Global;
use std::rt::Clock;
use std::test::Fail;
use std::thread::Threads;
use worker_driver::{End, Free, Gate, RunEnd, batch, config_of, threaded_runs};

const STORE_BUFFERING: &[u8] =
    b"RISCV SB\n{ 0:x5=1; 0:x6=x; 0:x8=y; 1:x5=1; 1:x6=y; 1:x8=x; }\n P0 | P1 ;\n sw x5,0(x6) | sw x5,0(x6) ;\n\
 lw x7,0(x8) | lw x7,0(x8) ;\nexists (0:x7=0 /\\ 1:x7=0)\n";

// Runs by the seeds from 0 on, of a machine that options leave as it is.
fn runs_by<R: Threads + Sync, G: Gate + Sync>(
    rt: &R,
    alloc: Global,
    count: u32,
    workers: u32,
    gate: &G,
) -> Result<Vec<RunEnd>, &'static str>
    requires { (0 < workers) × (workers ≤ 16) }
{
    runs_from(rt, alloc, 0, count, workers, gate)
}

// Runs by the seeds from the first on.
fn runs_from<R: Threads + Sync, G: Gate + Sync>(
    rt: &R,
    alloc: Global,
    first: u64,
    count: u32,
    workers: u32,
    gate: &G,
) -> Result<Vec<RunEnd>, &'static str>
    requires { (0 < workers) × (workers ≤ 16) }
{
    let Ok(test) = read(alloc, STORE_BUFFERING) else {
        return Err("the text is no test");
    };
    let Some(config) = config_of(&MachineOptions::DEFAULT, test.threads() as u32) else {
        return Err("there is no such machine");
    };
    match batch(
        rt, alloc, &test, config, first, count, 100_000, workers, gate,
    ) {
        Ok(runs) => Ok(runs),
        Err(_) => Err("memory is refused"),
    }
}

// Whether all that a report tells of two runs is the same.
fn are_same(run: &RunEnd, other: &RunEnd) -> bool {
    let states = match (&run.state, &other.state) {
        (Some(state), Some(others)) => state.values() == others.values(),
        (None, None) => true,
        _ => false,
    };
    states
        && run.end == other.end
        && run.completed == other.completed
        && run.stale == other.stale
        && run.counts == other.counts
}

#[test]
fn every_number_of_workers_gives_the_same_list(rt: HostRuntime) -> Result<(), Fail> {
    let alone = runs_by(&rt, rt.alloc(), 100, 1, &Free)?;
    assert_eq!(rt; alone.len(), 100);
    for workers in [3, 16] {
        let shared = runs_by(&rt, rt.alloc(), 100, workers, &Free)?;
        assert_eq!(rt; shared.len(), alone.len());
        for i in 0..alone.len().min(shared.len()) {
            assert_eq!(rt; alone[i].end, End::AllDone, "run {i}");
            assert!(rt;
                are_same(&alone[i], &shared[i]),
                "run {i} by {workers} workers"
            );
        }
    }
    Ok(())
}

// Seed 0 comes behind the last one. The runs of 40 seeds aren't all alike, so others would show.
#[test]
fn the_seed_behind_the_last_one_is_0(rt: HostRuntime) -> Result<(), Fail> {
    let from_0 = runs_by(&rt, rt.alloc(), 40, 1, &Free)?;
    let across = runs_from(&rt, rt.alloc(), 18_446_744_073_709_551_614, 42, 2, &Free)?;
    assert_eq!(rt; [from_0.len(), across.len()], [40, 42]);
    for i in 0..from_0.len().min(across.len().saturating_sub(2)) {
        assert!(rt; are_same(&from_0[i], &across[i + 2]), "seed {i}");
    }
    Ok(())
}

// Each run passes the gate once, by its number and not by its seed, whichever worker makes it. Two workers make runs at
// the same time. One ends run 0 before run 1 begins, so run 0 looks for the other in vain.
#[test]
fn all_runs_of_a_batch_pass_the_gate(rt: HostRuntime) -> Result<(), Fail> {
    for (count, workers, looks, met) in [
        (1, 1, 0, 0),
        (1, 3, 0, 0),
        (2, 1, 100, 1),
        (2, 2, 10_000_000, 2),
        (2, 16, 0, 0),
        (100, 1, 0, 0),
        (100, 3, 0, 0),
    ] {
        let gate = TurnCounts::new(rt.alloc(), count, looks)?;
        let runs = runs_from(&rt, rt.alloc(), 7, count, workers, &gate)?;
        assert!(rt;
            runs.len() == count as usize && gate.are(&[1; 100], met),
            "{count} runs by {workers} workers"
        );
    }
    Ok(())
}

// Runs by threads of a machine that opens at this time, with so many turns for each seat.
fn runs_by_threads<R: Threads + Clock + Sync, G: Gate + Sync>(
    rt: &R,
    alloc: Global,
    time: u64,
    limit: u32,
    count: u64,
    workers: u32,
    gate: &G,
) -> Result<Vec<RunEnd>, &'static str>
    requires { (0 < workers) × (workers ≤ 16) }
{
    let options = MachineOptions {
        time,
        ..MachineOptions::DEFAULT
    };
    let Ok(test) = read(alloc, STORE_BUFFERING) else {
        return Err("the text is no test");
    };
    let Some(config) = config_of(&options, test.threads() as u32) else {
        return Err("there is no such machine");
    };
    match threaded_runs(rt, alloc, &test, config, count, limit, workers, false, gate) {
        Ok(runs) => Ok(runs),
        Err(_) => Err("memory is refused"),
    }
}

// Two cores and a bank have one turn each, and the run isn't made again.
#[test]
fn a_run_by_threads_passes_the_gate(rt: HostRuntime) -> Result<(), Fail> {
    for workers in [1, 2, 3] {
        let gate = TurnCounts::new(rt.alloc(), 3, 0)?;
        let runs = runs_by_threads(&rt, rt.alloc(), 0, 1, 1, workers, &gate)?;
        assert!(rt;
            runs.len() == 1 && runs[0].end == End::TurnsUsed && gate.are(&[1, 1, 1], 0),
            "{workers} workers"
        );
    }
    Ok(())
}

// Each run gives two cores and a bank one turn each, or two, and isn't made again. At the last time no store fits: core
// 0 stops in its fourth turn, where it would be done. Before, core 1 had two turns, and the bank ten: four that load
// and grant a line, twice, one that puts the last grant, and one that does nothing.
#[test]
fn all_runs_by_threads_pass_the_gate(rt: HostRuntime) -> Result<(), Fail> {
    for (time, limit, workers, turns) in [
        (0, 1, 1, 3),
        (0, 1, 2, 3),
        (0, 1, 3, 3),
        (0, 2, 1, 6),
        (0, 2, 3, 6),
        (18_446_744_073_709_551_615, 1_000, 1, 16),
    ] {
        for count in [1u64, 2, 3] {
            let gate = Calls::new(workers);
            let runs = runs_by_threads(&rt, rt.alloc(), time, limit, count, workers, &gate)?;
            assert_eq!(rt;
                (runs.len() as u64, gate.count()),
                (count, Some([turns * count; 2])),
                "{count} runs by {workers} workers"
            );
        }
    }
    Ok(())
}
