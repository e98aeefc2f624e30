//! The runs of a litmus test that options ask for.
ghost use Rattle.std.specs.Prelude.{◌≡◌, IfOk, MatchOption, OnErr, false, true};
ghost use Rattle.litmus_reader.specs.TestViews.{test_of};
ghost use Rattle.machine_table.specs.SetUp.{is_good};
ghost use Rattle.worker_driver.specs.AskedRuns.{AreAsked, machine_for};
ghost use Rattle.worker_driver.specs.SetUp.{FollowsPolicy};

use crate::batches::{policy_runs, seeded_runs};
use crate::set_up::{Driver, config_of, driver_of, limit_of, workers_of};
use crate::threads::threaded_runs;
use interleaving_core::Config;
use litmus_reader::Test;
use report_text::RunEnd;
use run_options::LitmusOptions;
use schedules::Policy;
use shared_jobs::Free;
use std::alloc::{AllocError, Global};
use std::rt::Clock;
use std::thread::Threads;

/// The runs of the test that the options ask for, on a machine with a core for each thread: `None` exactly if no
/// machine is as they ask. As many workers as they say share runs by seeds, or drive the machine of a run by threads.
/// AllocError if memory for runs on a good machine can't be allocated, as `policy_runs`, `seeded_runs` and
/// `threaded_runs` say.
pub fn runs_by_options<R: Threads + Clock + Sync>(
    rt: &R,
    alloc: Global,
    test: &Test,
    options: &LitmusOptions,
) -> Result<Option<Vec<RunEnd>>, AllocError>
    ensures runs { IfOk result (λ runs. MatchOption runs
        (is_good (machine_for options.now (test_of test.now)) ≡ false)
        (λ runs. AreAsked options.now (test_of test.now) runs.items)) }
    ensures refused { OnErr result (is_good (machine_for options.now (test_of test.now)) ≡ true) }
{
    let Some(config) = config_of(&options.run.machine, test.threads() as u32) else {
        return Ok(None);
    };
    let runs = runs_on_machine(rt, alloc, test, config, options)?;
    Ok(Some(runs))
}

/// The same by a schedule without threads: the calling thread makes all runs.
pub fn policy_runs_by_options(
    alloc: Global,
    test: &Test,
    options: &LitmusOptions,
) -> Result<Option<Vec<RunEnd>>, AllocError>
    requires { FollowsPolicy options.now.run }
    ensures runs { IfOk result (λ runs. MatchOption runs
        (is_good (machine_for options.now (test_of test.now)) ≡ false)
        (λ runs. AreAsked options.now (test_of test.now) runs.items)) }
    ensures refused { OnErr result (is_good (machine_for options.now (test_of test.now)) ≡ true) }
{
    let Some(config) = config_of(&options.run.machine, test.threads() as u32) else {
        return Ok(None);
    };
    let runs = policy_runs_on_machine(alloc, test, config, options)?;
    Ok(Some(runs))
}

// The runs on a machine that is set up so.
fn runs_on_machine<R: Threads + Clock + Sync>(
    rt: &R,
    alloc: Global,
    test: &Test,
    config: Config,
    options: &LitmusOptions,
) -> Result<Vec<RunEnd>, AllocError>
    requires good { is_good config ≡ true }
    requires config { config ≡ machine_for options.now (test_of test.now) }
    ensures { IfOk result (λ runs. AreAsked options.now (test_of test.now) runs.items) }
{
    let run = &options.run;
    let (count, limit, workers) = (options.runs, limit_of(run), workers_of(run));
    match driver_of(run) {
        Driver::ByPolicy(Policy::Seed(first)) => {
            seeded_runs(rt, alloc, test, config, first, count, limit, workers, &Free)
        }
        Driver::ByPolicy(policy) => policy_runs(alloc, test, config, policy, count, limit),
        Driver::ByThreads(fair) => {
            threaded_runs(rt, alloc, test, config, count, limit, workers, fair, &Free)
        }
    }
}

// The same where no threads drive the first run.
fn policy_runs_on_machine(
    alloc: Global,
    test: &Test,
    config: Config,
    options: &LitmusOptions,
) -> Result<Vec<RunEnd>, AllocError>
    requires policy { FollowsPolicy options.now.run }
    requires good { is_good config ≡ true }
    requires config { config ≡ machine_for options.now (test_of test.now) }
    ensures { IfOk result (λ runs. AreAsked options.now (test_of test.now) runs.items) }
{
    let limit = limit_of(&options.run);
    match driver_of(&options.run) {
        Driver::ByPolicy(policy) => policy_runs(alloc, test, config, policy, options.runs, limit),
        Driver::ByThreads(_) => unreachable!(),
    }
}
