//! Lists every end of a litmus test, and runs the test.
ghost use Rattle.std.specs.Prelude.{◌≡◌, true, IfOk, IfSome};
ghost use Rattle.std.specs.List.{AllByRecursion, Contains};
ghost use Rattle.litmus_reader.specs.TestViews.{test_of};
ghost use Rattle.machine_table.specs.SetUp.{is_good};
ghost use Rattle.sequential_ends.specs.Every.{values_in};

use interleaving_core::Config;
use litmus_reader::Test;
use sequential_ends::{Ends, EndsError, MOST_STATES, list_ends};
use std::alloc::Global;
use worker_driver::{Policy, RunEnd, policy_runs};

/// Every end of the test, and the ends of runs by the seeds from 0 on. No run has an end that isn't in the list.
pub fn ends_and_runs(
    alloc: Global,
    test: &Test,
    config: Config,
    seeds: u64,
) -> Result<(Ends, Vec<RunEnd>), EndsError>
    requires good { is_good config ≡ true }
    requires cores { config.cores ≡ (test_of test.now).threads }
    ensures { IfOk result (λ found.
        AllByRecursion (λ run. IfSome run.state (Contains (values_in found.0))) found.1.items) }
{
    let ends = list_ends(alloc, test, MOST_STATES, false)?;
    let runs = policy_runs(alloc, test, config, Policy::Seed(0), seeds, 10_000)?;
    Ok((ends, runs))
}
