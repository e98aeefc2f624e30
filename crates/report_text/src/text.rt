//! The whole text, part by part.

ghost use Rattle.std.specs.Prelude.{◌≡◌, ◌++◌, OnOk, IfOk};
ghost use Rattle.litmus_reader.specs.TestViews.{test_of};
ghost use Rattle.report_text.specs.States.{state_entries};
ghost use Rattle.report_text.specs.Text.{condition_text, ends_text, is_yes, litmus_text, state_list};
ghost use Rattle.report_text.specs.Text.{states_text, sums_text};

use crate::ends::{Endings, count_run_endings};
use crate::lines::{put_end_state, quantifier_text};
use crate::run_end::RunEnd;
use crate::states::count_end_states;
use crate::sums::{Sums, sum_over_runs};
use indexmap::IndexMap;
use litmus_reader::{Quantifier, Test};
use report_lines::{
    Layout, put_item_separator, put_labelled_number, put_labelled_word, put_list_closing,
    put_list_opening, put_message_counts, put_report_closing, put_report_opening,
};
use std::alloc::{AllocError, Global};

/// The test's name and threads, how many runs there are, and how many of them ended in which way.
fn put_run_endings(
    out: &mut Vec<u8>,
    layout: Layout,
    test: &Test,
    runs: usize,
    endings: Endings,
) -> Result<(), AllocError>
    ensures { OnOk result (out.new.items ≡
        out.old.items ++ ends_text layout (test_of test.now) runs endings) }
{
    put_labelled_word(out, layout, b"test", test.name())?;
    put_labelled_number(out, layout, b"threads", test.threads() as u128)?;
    put_labelled_number(out, layout, b"runs", runs as u128)?;
    put_labelled_number(out, layout, b"all-done", endings.all_done as u128)?;
    put_labelled_number(out, layout, b"stalled", endings.stalled as u128)?;
    put_labelled_number(out, layout, b"limit", endings.turns_used as u128)?;
    put_labelled_number(out, layout, b"exhausted", endings.exhausted as u128)?;
    put_labelled_number(out, layout, b"memory", endings.no_memory as u128)
}

/// The end states, in order.
fn put_end_state_list(
    out: &mut Vec<u8>,
    layout: Layout,
    test: &Test,
    states: &IndexMap<&[u64], u64>,
) -> Result<(), AllocError>
    ensures { OnOk result (out.new.items ≡ out.old.items
        ++ state_list layout (test_of test.now) (state_entries states.now.entries)) }
{
    // Its contract says how few there are.
    let _few = states.len();
    let mut index = 0;
    while let Some((values, count)) = states.get_index(index) {
        put_item_separator(out, layout, index == 0)?;
        put_end_state(out, layout, test, *count, *values)?;
        index += 1;
    }
    Ok(())
}

/// How many end states there are, and each of them.
fn put_end_states(
    out: &mut Vec<u8>,
    layout: Layout,
    test: &Test,
    states: &IndexMap<&[u64], u64>,
) -> Result<(), AllocError>
    ensures { OnOk result (out.new.items ≡
        out.old.items ++ states_text layout (test_of test.now) (state_entries states.now.entries)) }
{
    put_list_opening(out, layout, b"states", states.len())?;
    put_end_state_list(out, layout, test, states)?;
    put_list_closing(out, layout)
}

/// Whether this many of these runs meet the condition, if its expression holds in them.
fn is_condition_met(quantifier: Quantifier, held: usize, all_done: usize) -> bool
    ensures { result ≡ is_yes quantifier held all_done }
{
    match quantifier {
        Quantifier::Exists => held > 0,
        Quantifier::NotExists => held == 0,
        Quantifier::Forall => held == all_done,
    }
}

/// The condition, in how many runs its expression holds, and the verdict.
fn put_condition_verdict(
    out: &mut Vec<u8>,
    layout: Layout,
    test: &Test,
    endings: Endings,
) -> Result<(), AllocError>
    ensures { OnOk result (out.new.items ≡
        out.old.items ++ condition_text layout (test_of test.now) endings) }
{
    put_labelled_word(out, layout, b"condition", quantifier_text(test.condition()))?;
    put_labelled_number(out, layout, b"held", endings.held as u128)?;
    if is_condition_met(test.condition(), endings.held, endings.all_done) {
        return put_labelled_word(out, layout, b"verdict", b"yes");
    }
    put_labelled_word(out, layout, b"verdict", b"no")
}

/// The sums over all runs.
fn put_sums_over_runs(out: &mut Vec<u8>, layout: Layout, sums: Sums) -> Result<(), AllocError>
    ensures { OnOk result (out.new.items ≡ out.old.items ++ sums_text layout sums) }
{
    put_labelled_number(out, layout, b"completed", sums.completed)?;
    put_message_counts(out, layout, sums.counts)?;
    put_labelled_number(out, layout, b"stale-hits", sums.stale)
}

/// The text that reports on the runs of a test, in lines that end with a line feed or as one JSON object: how the runs
/// ended; the end states of the runs that are all done, in the order in which they first occurred, each with how often
/// it occurred and the values of the condition's names; in how many of these runs the condition's expression holds, and
/// the verdict; and sums over all runs, where 2^128 - 1 stands for a greater one.
#[tactic(auto, unfolding(crate::specs::Text::litmus_text))]
pub fn litmus_text(
    alloc: Global,
    layout: Layout,
    test: &Test,
    runs: &[RunEnd],
) -> Result<Vec<u8>, AllocError>
    ensures { IfOk result (λ text. text.items ≡ litmus_text layout (test_of test.now) runs.now) }
{
    let endings = count_run_endings(test, runs);
    let states = count_end_states(alloc, runs)?;
    let mut out = Vec::new(alloc);
    put_report_opening(&mut out, layout, b"litmus")?;
    put_run_endings(&mut out, layout, test, runs.len(), endings)?;
    put_end_states(&mut out, layout, test, &states)?;
    put_condition_verdict(&mut out, layout, test, endings)?;
    put_sums_over_runs(&mut out, layout, sum_over_runs(runs))?;
    put_report_closing(&mut out, layout)?;
    Ok(out)
}
