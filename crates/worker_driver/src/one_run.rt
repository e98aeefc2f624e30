//! One run of a litmus test by a policy, and the machine for it.
ghost use Rattle.std.specs.Prelude.{◌≡◌, true, IfOk, IfSome, OnOk};
ghost use Rattle.std.specs.FinMap.{empty};
ghost use Rattle.litmus_reader.specs.OpeningMemory.{words_opened};
ghost use Rattle.litmus_reader.specs.TestViews.{test_of};
ghost use Rattle.machine_table.specs.Opening.{at_start};
ghost use Rattle.machine_table.specs.SetUp.{is_good};
ghost use Rattle.worker_driver.specs.declared.set_up.Driver.TheVariants.{ByPolicy};
ghost use Rattle.worker_driver.specs.Outcomes.{HasOutcome};
ghost use Rattle.worker_driver.specs.Runs.{IsRun};

use crate::run_end::run_end;
use crate::threads::initial_thread_states;
use interleaving_core::{Config, System};
use litmus_reader::Test;
use machine_theorem::laws::every_history_is_legal;
use report_text::RunEnd;
use schedules::{Policy, run_to_end};
use sequential_machine::laws::performed_histories_are_sequential;
use std::alloc::{AllocError, Global};

/// A machine with this set-up that opens with the test's memory.
pub(crate) fn open_test_machine(
    alloc: Global,
    test: &Test,
    config: Config,
) -> Result<System, AllocError>
    requires { is_good config ≡ true }
    ensures { IfOk result (λ system. system ≡ at_start config
        (words_opened (test_of test.now).items empty)) }
{
    let memory = test.opening()?;
    let Ok(system) = System::new(alloc, config, memory) else {
        return Err(AllocError);
    };
    Ok(system)
}

/// The machine of an earlier run, or else a new one, opened with the test's memory.
pub(crate) fn reopen_test_machine(
    kept: Option<System>,
    alloc: Global,
    test: &Test,
    config: Config,
) -> Result<System, AllocError>
    requires good { is_good config ≡ true }
    requires kept { IfSome kept (λ system. system.config ≡ config) }
    ensures { IfOk result (λ system. system ≡ at_start config
        (words_opened (test_of test.now).items empty)) }
{
    match kept {
        Some(system) => Ok(system.reopen(test.opening()?)?),
        None => open_test_machine(alloc, test, config),
    }
}

/// A run of the test by this policy, with at most `limit` turns, on a machine that has just opened with the test's
/// memory. The end state of a run that is all done is an outcome of the sequential machine. The configuration stays.
pub(crate) fn run_opened_test(
    alloc: Global,
    test: &Test,
    system: &mut System,
    policy: Policy,
    limit: u32,
) -> Result<RunEnd, AllocError>
    requires good { is_good system.old.config ≡ true }
    requires cores { system.old.config.cores ≡ (test_of test.now).threads }
    requires opened { system.old ≡ at_start system.old.config
        (words_opened (test_of test.now).items empty) }
    ensures run { IfOk result (IsRun (test_of test.now) system.old.config (ByPolicy policy)
        limit) }
    ensures outcome { IfOk result (HasOutcome (test_of test.now)) }
    ensures config { OnOk result (system.new.config ≡ system.old.config) }
{
    every_history_is_legal();
    performed_histories_are_sequential();
    let mut started = initial_thread_states(alloc, test)?;
    let threads = started.as_mut_slice();
    let end = run_to_end(alloc, system, threads, policy, limit);
    run_end(alloc, test, end, threads, system)
}
