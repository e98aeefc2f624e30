//! A piece of a run: turns for which the steps were read ahead, and what is left after it.
ghost use Rattle.std.specs.Prelude.{◌≡◌, ◌≤◌, ◌<◌, [], length, true, false};
ghost use Rattle.streamed_runs.specs.Pieces.{IsPiece};
ghost use Rattle.streamed_runs.specs.StreamStates.{end_with, turns_left};

use crate::completed::Completed;
use interleaving_core::{System, ToldHistory};
use physiological_order::Record;
use programs::End;
use schedules::{Pace, run_on};
use std::alloc::Global;
use trace_reader::StepQueue;

// How many turns a piece has at most that begins at the text's end: what completes in it is kept until it is over.
const LAST_TURNS: usize = 4_096;

// How a run that is over ends, where the text has more steps or not.
pub(crate) fn end_of_streamed_run(end: End, has_more: bool) -> End
    ensures { result ≡ end_with end has_more }
{
    match end {
        End::AllDone if has_more => End::TurnsUsed,
        _ => end,
    }
}

// How many turns are left after a piece of so many, of those that were left before it: none, if the run is over.
pub(crate) fn turns_left_after_piece(left: u32, turns: u32, end: End, has_more: bool) -> u32
    requires { turns ≤ left }
    ensures { result ≡ turns_left left turns (end_with end has_more) }
{
    match end_of_streamed_run(end, has_more) {
        End::TurnsUsed => left - turns,
        End::AllDone | End::Stalled | End::Exhausted | End::NoMemory => 0,
    }
}

// Whether all is done: no step is left, and none is to come.
pub(crate) fn is_stream_done(has_more: bool, end: End, are_empty: bool) -> bool
    ensures yes { result ≡ true → (has_more ≡ false) × (end ≡ End.AllDone) × (are_empty ≡ true) }
    ensures not { result ≡ false → end ≡ End.AllDone → has_more ≡ false → are_empty ≡ false }
{
    !has_more && are_empty && end == End::AllDone
}

// How many turns a piece makes, where so many are left and each core has so many steps: no more than there are steps
// for, if more may come behind them.
pub(crate) fn turns_for_piece(left: u32, steps: usize, has_more: bool) -> u32
    ensures most { result ≤ left }
    ensures ahead { has_more ≡ true → result ≤ steps }
    ensures some { 0 < left → (has_more ≡ true → 0 < steps) → 0 < result }
{
    let most = if has_more { steps } else { LAST_TURNS };
    if most < left as usize {
        most as u32
    } else {
        left
    }
}

// Makes a piece of a run: at most so many turns, of steps that were read ahead, from where the pace stands. The records
// of what completes are kept in the memory of this list, which is empty; with the end, they are the result.
pub(crate) fn make_piece(
    alloc: Global,
    system: &mut System<ToldHistory>,
    queues: &mut [StepQueue],
    records: Vec<Record>,
    pace: &mut Pace,
    turns: u32,
) -> (End, Vec<Record>)
    requires one_each { length queues.old ≡ system.old.config.cores }
    requires none { records.items ≡ [] }
    ensures { IsPiece turns pace.old system.old queues.old pace.new system.new queues.new
        result.0 result.1.items }
{
    let watcher = Completed { records };
    let (end, watcher) = run_on(alloc, system, queues, watcher, pace, turns);
    // What is always true of a machine: its records rise by number, and can be counted.
    system.records_are_legal();
    let _completed = system.completed();
    (end, watcher.records)
}
