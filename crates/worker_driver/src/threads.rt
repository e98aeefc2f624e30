//! Runs of a litmus test by threads that share the machine.
ghost use Rattle.std.specs.Prelude.{◌≡◌, ◌<◌, ◌≤◌, true, IfOk, length};
ghost use Rattle.std.specs.List.{AllByRecursion};
ghost use Rattle.litmus_reader.specs.TestViews.{test_of};
ghost use Rattle.machine_table.specs.SetUp.{is_good};
ghost use Rattle.worker_driver.specs.declared.set_up.Driver.TheVariants.{ByThreads};
ghost use Rattle.worker_driver.specs.Outcomes.{HasOutcome};
ghost use Rattle.worker_driver.specs.Runs.{AreFrom, IsRun, threads_from};

use crate::run_end::run_end;
use interleaving_core::Config;
use litmus_reader::{Test, ThreadState};
use physiological_order::Memory;
use programs::program::Program;
use report_text::RunEnd;
use sequential_machine::laws::performed_histories_are_sequential;
use shared_jobs::Gate;
use std::alloc::{AllocError, Global};
use std::rt::Clock;
use std::thread::Threads;
use thread_driver::laws::closed_machines_are_consistent;
use thread_driver::run_seats;

/// `count` runs of the test, one after the other, each on a new machine with a core for each thread. 1 to 16 workers,
/// each a thread, drive the machine of a run, and give each of its cores and banks at most `limit` turns. With `fair`
/// those of banks are fair ones. They pass the gate before and after each turn. The end state of a run that is all done
/// is an outcome of the sequential machine. AllocError if memory for the list, for a machine or for the result of a run
/// can't be allocated.
pub fn threaded_runs<R: Threads + Clock + Sync, G: Gate + Sync>(
    rt: &R,
    alloc: Global,
    test: &Test,
    config: Config,
    count: u64,
    limit: u32,
    workers: u32,
    fair: bool,
    gate: &G,
) -> Result<Vec<RunEnd>, AllocError>
    requires good { is_good config ≡ true }
    requires cores { config.cores ≡ (test_of test.now).threads }
    requires workers { (0 < workers) × (workers ≤ 16) }
    ensures count { IfOk result (λ runs. length runs.items ≡ count) }
    ensures each { IfOk result (λ runs. AreFrom (test_of test.now) config (ByThreads fair) limit 0 runs.items) }
    ensures outcomes { IfOk result (λ runs.
        AllByRecursion (HasOutcome (test_of test.now)) runs.items) }
{
    let mut runs = Vec::new(alloc);
    for _ in 0..count {
        let run = threaded_run(rt, alloc, test, config, limit, workers, fair, gate)?;
        runs.push(run)?;
    }
    Ok(runs)
}

// A run of the test by threads.
fn threaded_run<R: Threads + Clock + Sync, G: Gate + Sync>(
    rt: &R,
    alloc: Global,
    test: &Test,
    config: Config,
    limit: u32,
    workers: u32,
    fair: bool,
    gate: &G,
) -> Result<RunEnd, AllocError>
    requires good { is_good config ≡ true }
    requires cores { config.cores ≡ (test_of test.now).threads }
    requires workers { (0 < workers) × (workers ≤ 16) }
    ensures run { IfOk result (IsRun (test_of test.now) config (ByThreads fair) limit) }
    ensures outcome { IfOk result (HasOutcome (test_of test.now)) }
{
    closed_machines_are_consistent();
    performed_histories_are_sequential();
    let memory = test.opening()?;
    let threads = initial_thread_states(alloc, test)?;
    let ran = run_seats(
        rt, alloc, config, memory, threads, workers, limit, fair, gate,
    )?;
    run_end(alloc, test, ran.end, &ran.programs, &ran.run)
}

/// The threads as the test opens them.
pub(crate) fn initial_thread_states<'a>(
    alloc: Global,
    test: &'a Test,
) -> Result<Vec<ThreadState<'a>>, AllocError>
    ensures { IfOk result (λ threads. threads.items ≡
        threads_from (test_of test.now) 0 (test_of test.now).threads) }
{
    let mut threads = Vec::with_capacity(alloc, test.threads())?;
    for thread in 0..test.threads() {
        threads.push(test.start(thread as u8))?;
    }
    Ok(threads)
}
