//! The runs of a litmus test, as jobs that workers share.
ghost use Rattle.std.specs.Prelude.{◌≡◌, true};
ghost use Rattle.litmus_reader.specs.TestViews.{test_of};
ghost use Rattle.machine_table.specs.SetUp.{is_good};

use crate::one_run::{open_test_machine, run_opened_test};
use interleaving_core::{Config, System};
use litmus_reader::Test;
use report_text::RunEnd;
use schedules::Policy;
use shared_jobs::{Begun, Jobs};
use std::alloc::{AllocError, Global};

/// Runs of the test with at most `limit` turns each. The first follows the policy `first`; by seeds each further one
/// has the next seed, modulo 2^64.
#[derive(Drop)]
pub(crate) struct SharedRuns<'a> {
    pub(crate) alloc: Global,
    pub(crate) test: &'a Test,
    pub(crate) config: Config,
    pub(crate) first: Policy,
    pub(crate) limit: u32,
    ghost good: { is_good config ≡ true },
    ghost cores: { config.cores ≡ (test_of test.now).threads },
}

/// A worker keeps one machine and opens it anew for each run, with the test's memory. If an allocation for that, or
/// for the result of a run, fails, the run drops the machine.
impl Jobs<RunEnd, System> for SharedRuns<'_> {
    ghost use Rattle.worker_driver.specs.Batches.{IsJobOf};

    ghost gives = { λ runs number run. IsJobOf (test_of runs.test.now) runs.config runs.first runs.limit number run };

    ghost ready = { λ runs system. system.config ≡ runs.config };

    fn open(&self) -> Result<System, AllocError> {
        open_test_machine(self.alloc, self.test, self.config)
    }

    fn run(&self, begun: &Begun, state: System) -> Result<(RunEnd, System), AllocError> {
        let mut system = state.reopen(self.test.opening()?)?;
        let policy = self.first.of_run(begun.seat());
        let run = run_opened_test(self.alloc, self.test, &mut system, policy, self.limit)?;
        Ok((run, system))
    }
}
