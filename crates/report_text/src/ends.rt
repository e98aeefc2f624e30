//! How many runs ended in each way, and in how many the condition's expression holds.

ghost use Rattle.std.specs.Prelude.{◌≡◌};
ghost use Rattle.litmus_reader.specs.TestViews.{test_of};
ghost use Rattle.report_text.specs.Ends.{AreFew, endings_of, ends_as, condition_holds, with_run};

use crate::run_end::RunEnd;
use litmus_reader::Test;
use programs::End;

/// How many runs ended in each way, and how many of those that are all done have an end state in which the condition's
/// expression holds.
#[derive(Clone, Copy, Debug)]
pub(crate) struct Endings {
    pub all_done: usize,
    pub stalled: usize,
    pub turns_used: usize,
    pub exhausted: usize,
    pub no_memory: usize,
    pub held: usize,
}

fn run_ends_as(run: &RunEnd, end: End) -> bool
    ensures { result ≡ ends_as end run.now }
{
    match (run.end, end) {
        (End::AllDone, End::AllDone) => true,
        (End::Stalled, End::Stalled) => true,
        (End::TurnsUsed, End::TurnsUsed) => true,
        (End::Exhausted, End::Exhausted) => true,
        (End::NoMemory, End::NoMemory) => true,
        _ => false,
    }
}

/// Whether a run is all done with an end state in which the condition's expression holds.
fn condition_holds_in_run(test: &Test, run: &RunEnd) -> bool
    ensures { result ≡ condition_holds (test_of test.now) run.now }
{
    match (run.end, &run.state) {
        (End::AllDone, Some(state)) => test.state_holds(state),
        _ => false,
    }
}

/// One more run.
fn endings_with_run(test: &Test, endings: Endings, run: &RunEnd) -> Endings
    requires { AreFew endings }
    ensures { result ≡ with_run (test_of test.now) endings run.now }
{
    Endings {
        all_done: endings.all_done + usize::from(run_ends_as(run, End::AllDone)),
        stalled: endings.stalled + usize::from(run_ends_as(run, End::Stalled)),
        turns_used: endings.turns_used + usize::from(run_ends_as(run, End::TurnsUsed)),
        exhausted: endings.exhausted + usize::from(run_ends_as(run, End::Exhausted)),
        no_memory: endings.no_memory + usize::from(run_ends_as(run, End::NoMemory)),
        held: endings.held + usize::from(condition_holds_in_run(test, run)),
    }
}

/// How these runs ended.
pub(crate) fn count_run_endings(test: &Test, runs: &[RunEnd]) -> Endings
    ensures { result ≡ endings_of (test_of test.now) runs.now }
{
    let mut endings = Endings {
        all_done: 0,
        stalled: 0,
        turns_used: 0,
        exhausted: 0,
        no_memory: 0,
        held: 0,
    };
    for run in runs {
        endings = endings_with_run(test, endings, run);
    }
    endings
}
