//! Sums over all runs.

ghost use Rattle.std.specs.Prelude.{◌≡◌};
ghost use Rattle.report_text.specs.Sums.{sums_after, sums_of};

use crate::run_end::RunEnd;
use machine_table::Counts;

/// What the runs did, all together. A sum that would pass 2^128 - 1 is 2^128 - 1.
#[derive(Clone, Copy, Debug)]
pub(crate) struct Sums {
    pub completed: u128,
    pub counts: Counts,
    pub stale: u128,
}

/// One more run.
fn sums_with_run(sums: Sums, run: &RunEnd) -> Sums
    ensures { result ≡ sums_after sums run.now }
{
    Sums {
        completed: sums.completed.saturating_add(u128::from(run.completed)),
        counts: Counts {
            renewals: sums.counts.renewals.saturating_add(run.counts.renewals),
            upgrades: sums.counts.upgrades.saturating_add(run.counts.upgrades),
            flushes: sums.counts.flushes.saturating_add(run.counts.flushes),
            write_backs: sums
                .counts
                .write_backs
                .saturating_add(run.counts.write_backs),
        },
        stale: sums.stale.saturating_add(u128::from(run.stale)),
    }
}

/// The sums over these runs.
pub(crate) fn sum_over_runs(runs: &[RunEnd]) -> Sums
    ensures { result ≡ sums_of runs.now }
{
    let mut sums = Sums {
        completed: 0,
        counts: Counts {
            renewals: 0,
            upgrades: 0,
            flushes: 0,
            write_backs: 0,
        },
        stale: 0,
    };
    for run in runs {
        sums = sums_with_run(sums, run);
    }
    sums
}
