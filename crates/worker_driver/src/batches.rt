//! Runs of a litmus test by seeds, shared by workers; and runs of it by a policy, made by the calling thread alone.
ghost use Rattle.std.specs.Prelude.{◌≡◌, ◌<◌, ◌≤◌, IfOk, length, true};
ghost use Rattle.std.specs.List.{AllByRecursion};
ghost use Rattle.litmus_reader.specs.TestViews.{test_of};
ghost use Rattle.machine_table.specs.SetUp.{is_good};
ghost use Rattle.schedules.specs.declared.policy.Policy.TheVariants.{Seed};
ghost use Rattle.worker_driver.specs.declared.set_up.Driver.TheVariants.{ByPolicy};
ghost use Rattle.worker_driver.specs.Outcomes.{HasOutcome};
ghost use Rattle.worker_driver.specs.Runs.{AreFrom};

use crate::one_run::{reopen_test_machine, run_opened_test};
use crate::shared_runs::SharedRuns;
use interleaving_core::Config;
use litmus_reader::Test;
use report_text::RunEnd;
use schedules::Policy;
use shared_jobs::{Gate, run_jobs};
use std::alloc::{AllocError, Global};
use std::thread::Threads;

/// `count` runs of the test by seeds: the first one's is `first`, and each further one has the next, modulo 2^64. Each
/// run has at most `limit` turns. 1 to 16 workers share them; each has one machine with a core for each thread, and
/// opens it anew for each of its runs, with the test's memory. The list is in the order of the runs, no matter which
/// worker made which. A worker passes the gate before each run and after it, with the run's number as seat and turn 0.
/// The end state of a run that is all done is an outcome of the sequential machine. AllocError if memory for the list
/// or the workers, or for a run that the workers left to the calling thread, can't be allocated.
pub fn batch<R: Threads + Sync, G: Gate + Sync>(
    rt: &R,
    alloc: Global,
    test: &Test,
    config: Config,
    first: u64,
    count: u32,
    limit: u32,
    workers: u32,
    gate: &G,
) -> Result<Vec<RunEnd>, AllocError>
    requires good { is_good config ≡ true }
    requires cores { config.cores ≡ (test_of test.now).threads }
    requires workers { (0 < workers) × (workers ≤ 16) }
    ensures count { IfOk result (λ runs. length runs.items ≡ count) }
    ensures each { IfOk result (λ runs.
        AreFrom (test_of test.now) config (ByPolicy (Seed first)) limit 0 runs.items) }
    ensures outcomes { IfOk result (λ runs.
        AllByRecursion (HasOutcome (test_of test.now)) runs.items) }
{
    seeded_runs(
        rt,
        alloc,
        test,
        config,
        first,
        u64::from(count),
        limit,
        workers,
        gate,
    )
}

/// The runs of a `batch`, of which there may be more.
pub fn seeded_runs<R: Threads + Sync, G: Gate + Sync>(
    rt: &R,
    alloc: Global,
    test: &Test,
    config: Config,
    first: u64,
    count: u64,
    limit: u32,
    workers: u32,
    gate: &G,
) -> Result<Vec<RunEnd>, AllocError>
    requires good { is_good config ≡ true }
    requires cores { config.cores ≡ (test_of test.now).threads }
    requires workers { (0 < workers) × (workers ≤ 16) }
    ensures count { IfOk result (λ runs. length runs.items ≡ count) }
    ensures each { IfOk result (λ runs.
        AreFrom (test_of test.now) config (ByPolicy (Seed first)) limit 0 runs.items) }
    ensures outcomes { IfOk result (λ runs.
        AllByRecursion (HasOutcome (test_of test.now)) runs.items) }
{
    let runs = SharedRuns {
        alloc,
        test,
        config,
        first: Policy::Seed(first),
        limit,
    };
    run_jobs(rt, alloc, &runs, count, workers, gate)
}

/// `count` runs of the test by the calling thread, one after the other: the first by this policy, and by seeds each
/// further one with the next, modulo 2^64. Each has at most `limit` turns, on one machine with a core for each thread,
/// which opens anew for each further run. The end state of a run that is all done is an outcome of the sequential
/// machine. AllocError if memory for the list, for the machine or for the result of a run can't be allocated.
pub fn policy_runs(
    alloc: Global,
    test: &Test,
    config: Config,
    first: Policy,
    count: u64,
    limit: u32,
) -> Result<Vec<RunEnd>, AllocError>
    requires good { is_good config ≡ true }
    requires cores { config.cores ≡ (test_of test.now).threads }
    ensures count { IfOk result (λ runs. length runs.items ≡ count) }
    ensures each { IfOk result (λ runs.
        AreFrom (test_of test.now) config (ByPolicy first) limit 0 runs.items) }
    ensures outcomes { IfOk result (λ runs.
        AllByRecursion (HasOutcome (test_of test.now)) runs.items) }
{
    let mut runs = Vec::new(alloc);
    let mut kept = None;
    for number in 0..count {
        let mut system = reopen_test_machine(kept, alloc, test, config)?;
        let run = run_opened_test(alloc, test, &mut system, first.of_run(number), limit)?;
        runs.push(run)?;
        kept = Some(system);
    }
    Ok(runs)
}
