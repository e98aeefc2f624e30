//! What a report says of a run apart from its records: the words that its trace names, their values, and how many
//! operations were issued.
ghost use Rattle.std.specs.Prelude.{◌≡◌, map, IfOk, OnOk};
ghost use Rattle.std.specs.FinMap.{entries};
ghost use Rattle.machine_table.specs.Machine.{Machine};
ghost use Rattle.streamed_runs.specs.StreamStates.{issued_below, values_in};
ghost use Rattle.trace_reader.specs.Steps.{trace_cores, with_words};
ghost use Rattle.report.specs.Runs.{words_below};

use physiological_order::{Memory, Op, WordAddr};
use std::alloc::{AllocError, Global};
use trace_reader::Trace;
use worker_driver::Finished;

// The words of operations, beside those that are there.
fn add_words_of_ops(words: &mut Memory, ops: &[Op]) -> Result<(), AllocError>
    ensures { OnOk result (words.new ≡ with_words words.old ops.now) }
{
    for op in ops {
        words.set(op.addr(), 0)?;
    }
    Ok(())
}

// The words that the operations of a trace name.
fn words_of_trace(alloc: Global, trace: &Trace) -> Result<Memory, AllocError>
    ensures { IfOk result (λ words. words ≡ words_below trace.now (trace_cores trace.now)) }
{
    let mut words = Memory::new(alloc);
    for core in 0..trace.cores() {
        add_words_of_ops(&mut words, trace.ops(core))?;
    }
    Ok(words)
}

// The words that a memory has, by rising address.
fn addresses_in_memory(alloc: Global, words: &Memory) -> Result<Vec<WordAddr>, AllocError>
    ensures { IfOk result (λ named. named.items ≡ map (λ entry. entry.0) (entries words.now)) }
{
    let entries = words.words()?;
    let mut named = Vec::with_capacity(alloc, entries.len())?;
    for entry in &entries {
        named.push(entry.0)?;
    }
    Ok(named)
}

// The values of words, where they stand.
fn values_of_words<M: Finished>(
    alloc: Global,
    machine: &M,
    words: &Memory,
) -> Result<Vec<(WordAddr, u64)>, AllocError>
    ensures { IfOk result (λ values. (m : Machine) → M.shows machine.now m →
        values.items ≡ values_in m words.now) }
{
    let named = addresses_in_memory(alloc, words)?;
    let values = machine.values(alloc, &named)?;
    let mut pairs = Vec::with_capacity(alloc, named.len())?;
    for (word, value) in named.iter().zip(values.iter()) {
        pairs.push((*word, *value))?;
    }
    Ok(pairs)
}

/// The words that the operations of a trace name, by rising address, with their values, where they are.
pub(crate) fn values_of_trace_words<M: Finished>(
    alloc: Global,
    trace: &Trace,
    machine: &M,
) -> Result<Vec<(WordAddr, u64)>, AllocError>
    ensures { IfOk result (λ values. (m : Machine) → M.shows machine.now m →
        values.items ≡ values_in m (words_below trace.now (trace_cores trace.now))) }
{
    let words = words_of_trace(alloc, trace)?;
    values_of_words(alloc, machine, &words)
}

/// How many operations the cores below a number were issued.
pub(crate) fn count_issued_operations<M: Finished>(machine: &M, cores: u32) -> u128
    requires { (m : Machine) × M.shows machine.now m }
    ensures { (m : Machine) → M.shows machine.now m → result ≡ issued_below m cores }
{
    let mut issued = 0;
    for core in 0..cores {
        issued += machine.issued(core).len() as u128;
    }
    issued
}
