//! The result of a run of a litmus test.
ghost use Rattle.std.specs.Prelude.{◌≡◌, ◌≤◌, map, IfOk};
ghost use Rattle.litmus_reader.specs.TestViews.{test_of};
ghost use Rattle.machine_table.specs.Machine.{Machine};
ghost use Rattle.machine_theorem.specs.Coherence.{coherent};
ghost use Rattle.worker_driver.specs.Runs.{Tells, state_at, values_from};

use crate::finished::Finished;
use litmus_reader::{EndState, Test, ThreadState};
use physiological_order::{WordAddr, stale_hits};
use programs::End;
use report_text::RunEnd;
use std::alloc::{AllocError, Global};

/// The result of a run of the test that ended so, with these threads and this machine.
pub(crate) fn run_end<M: Finished>(
    alloc: Global,
    test: &Test,
    end: End,
    threads: &[ThreadState<'_>],
    machine: &M,
) -> Result<RunEnd, AllocError>
    requires { (m : Machine) × M.shows machine.now m }
    ensures { IfOk result (λ run. (run.end ≡ end) × ((m : Machine) → M.shows machine.now m →
        Tells (test_of test.now) m threads.now run)) }
{
    let stale = stale_hits(alloc, machine.records())?;
    let state = end_state(alloc, test, end, threads, machine)?;
    Ok(RunEnd {
        end,
        state,
        completed: machine.records().len() as u64,
        stale,
        counts: machine.counts(),
    })
}

// The values of the condition's names, where all threads are done.
fn end_state<M: Finished>(
    alloc: Global,
    test: &Test,
    end: End,
    threads: &[ThreadState<'_>],
    machine: &M,
) -> Result<Option<EndState>, AllocError>
    ensures { IfOk result (λ state. (m : Machine) → M.shows machine.now m →
        state ≡ state_at (test_of test.now) end threads.now m) }
{
    match end {
        End::AllDone => {
            let memory = first_word_values(alloc, test.locations(), machine)?;
            Ok(Some(test.end(threads, &memory)?))
        }
        _ => Ok(None),
    }
}

// The values of the first words, where they stand.
fn first_word_values<M: Finished>(
    alloc: Global,
    count: usize,
    machine: &M,
) -> Result<Vec<u64>, AllocError>
    requires { count ≤ 64 }
    ensures { IfOk result (λ values. (m : Machine) → M.shows machine.now m →
        values.items ≡ values_from m 0 count) }
{
    let words = first_word_addresses(alloc, count)?;
    machine.values(alloc, &words)
}

// The first words, by rising address.
fn first_word_addresses(alloc: Global, count: usize) -> Result<Vec<WordAddr>, AllocError>
    requires { count ≤ 64 }
    ensures { IfOk result (λ words. (m : Machine) →
        map (coherent m) words.items ≡ values_from m 0 count) }
{
    let mut words = Vec::with_capacity(alloc, count)?;
    for word in 0..count {
        words.push(WordAddr::at(word as u64))?;
    }
    Ok(words)
}
