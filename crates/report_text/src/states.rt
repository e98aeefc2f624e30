//! The end states of the runs that are all done, each with how often it occurred, in the order in which they first
//! occurred.

ghost use Rattle.std.specs.Prelude.{◌≡◌, ◌<◌, ◌-◌, ◌^◌, OnOk, IfOk, option_map};
ghost use Rattle.report_text.specs.Ends.{done_state};
ghost use Rattle.report_text.specs.States.{state_entries, count_of_state, done_states, one_more, tallied};

use crate::run_end::RunEnd;
use indexmap::IndexMap;
use programs::End;
use std::alloc::{AllocError, Global};

/// The values of the condition's names, if a run is all done.
fn end_state_values(run: &RunEnd) -> Option<&[u64]>
    ensures { option_map (λ values. values.now) result ≡ done_state run.now.end run.now.state }
{
    match (run.end, &run.state) {
        (End::AllDone, Some(state)) => Some(state.values()),
        _ => None,
    }
}

/// How many runs with this end state are counted.
fn count_of_end_state(states: &IndexMap<&[u64], u64>, values: &[u64]) -> u64
    ensures { result ≡ count_of_state values.now (state_entries states.now.entries) }
{
    match states.get(values) {
        Some(count) => *count,
        None => 0,
    }
}

/// One more run with this end state.
fn count_end_state<'a>(
    states: &mut IndexMap<&'a [u64], u64>,
    values: &'a [u64],
) -> Result<(), AllocError>
    requires { count_of_state values.now (state_entries states.old.entries) < 2 ^ 64 - 1 }
    ensures { OnOk result (state_entries states.new.entries ≡
        one_more values.now (state_entries states.old.entries)) }
{
    let count = count_of_end_state(states, values);
    states.insert(values, count + 1)?;
    Ok(())
}

/// The end states of the runs that are all done, in the order in which they first occurred, with how often each did.
pub(crate) fn count_end_states(
    alloc: Global,
    runs: &[RunEnd],
) -> Result<IndexMap<&[u64], u64>, AllocError>
    ensures { IfOk result (λ states. state_entries states.entries ≡
        tallied (done_states runs.now)) }
{
    let mut states = IndexMap::new(alloc);
    for run in runs {
        if let Some(values) = end_state_values(run) {
            count_end_state(&mut states, values)?;
        }
    }
    Ok(states)
}
