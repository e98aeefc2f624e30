//! One run of a trace, by a policy or by threads, and its text.
ghost use Rattle.std.specs.Prelude.{◌≡◌, ◌<◌, ◌≤◌, ◌++◌, Bool, true, IfOk, OnOk};
ghost use Rattle.std.specs.FinMap.{empty};
ghost use Rattle.machine_table.specs.Machine.{Machine};
ghost use Rattle.machine_table.specs.SetUp.{is_good};
ghost use Rattle.closed_machine.specs.RunParts.{Parts};
ghost use Rattle.physiological_order.specs.Order.{flat, Legal};
ghost use Rattle.trace_texts.specs.Records.{AreComplete, records_text};
ghost use Rattle.thread_driver.specs.ThreadRuns.{machine_of};
ghost use Rattle.worker_driver.specs.declared.set_up.Driver.TheVariants.{ByPolicy, ByThreads};
ghost use Rattle.report.specs.Reports.{TellsRecords};
ghost use Rattle.trace_reader.specs.Steps.{trace_cores, trace_ops};
ghost use Rattle.report.specs.Runs.{IsTraceRun, IsWatched, bare_report, counter_text, run_text, seen_by};
ghost use Rattle.report.specs.Runs.{trace_end_of, whole_report};

use crate::trace_programs::programs_of_trace;
use crate::words::{count_issued_operations, values_of_trace_words};
use event_counts::Counter;
use interleaving_core::{Config, System};
use machine_theorem::laws::every_history_is_legal;
use mailboxes::Run;
use physiological_order::{Memory, stale_hits};
use programs::End;
use report_lines::{Layout, put_report_closing};
use schedules::{Policy, Watcher, run_watched};
use shared_jobs::Free;
use std::alloc::{AllocError, Global};
use std::rt::Clock;
use std::thread::Threads;
use thread_driver::laws::closed_machines_are_consistent;
use trace_reader::Trace;
use trace_texts::{TraceEnd, legal_trace_text, put_event_counts, records_text};
use worker_driver::{Finished, run_seats};

/// The machine on which a trace was run, and how the run ended.
#[derive(Drop)]
pub(crate) struct Ran<M: Drop> {
    pub(crate) machine: M,
    pub(crate) end: End,
}

/// A run of the trace over a memory of zeros, by this policy, with at most so many turns, and its watcher.
pub(crate) fn run_trace_by_policy<W: Watcher + Drop>(
    alloc: Global,
    trace: &Trace,
    config: Config,
    policy: Policy,
    limit: u32,
    watcher: W,
) -> Result<(Ran<System>, W), AllocError>
    requires good { is_good config ≡ true }
    requires cores { config.cores ≡ trace_cores trace.now }
    ensures run { IfOk result (λ r. IsTraceRun W.watches.asks (ByPolicy policy) limit config trace.now
        r.0.end r.0.machine) }
    ensures watched { IfOk result (λ r. IsWatched W.watches (W.watches.seen watcher) policy limit
        config trace.now r.0.end r.0.machine (W.watches.seen r.1)) }
{
    every_history_is_legal();
    // Its contract says how few cores there are.
    let _few = trace.cores();
    let Ok(mut system) = System::new(alloc, config, Memory::new(alloc)) else {
        return Err(AllocError);
    };
    let mut programs = programs_of_trace(alloc, trace)?;
    let steps = programs.as_mut_slice();
    let (end, watcher) = run_watched(alloc, &mut system, steps, watcher, policy, limit);
    // Its contract says that they rise by number.
    let _rising = system.records();
    let ran = Ran {
        machine: system,
        end,
    };
    Ok((ran, watcher))
}

/// A run of the trace over a memory of zeros, by so many threads, with at most so many turns of each core and bank,
/// those of banks fair or not.
pub(crate) fn run_trace_by_threads<R: Threads + Clock + Sync>(
    rt: &R,
    alloc: Global,
    trace: &Trace,
    config: Config,
    limit: u32,
    workers: u32,
    fair: bool,
) -> Result<Ran<Run>, AllocError>
    requires good { is_good config ≡ true }
    requires cores { config.cores ≡ trace_cores trace.now }
    requires workers { (0 < workers) × (workers ≤ 16) }
    ensures { IfOk result (λ ran. (parts : Parts ran.machine) ×
        ((asks : Bool) → IsTraceRun asks (ByThreads fair) limit config trace.now ran.end
        (machine_of ran.machine parts))) }
{
    closed_machines_are_consistent();
    // Its contract says how few cores there are.
    let _few = trace.cores();
    let memory = Memory::new(alloc);
    let programs = programs_of_trace(alloc, trace)?;
    let ran = run_seats(
        rt, alloc, config, memory, programs, workers, limit, fair, &Free,
    )?;
    // Its contract says that they rise by number.
    let _rising = ran.run.records();
    Ok(Ran {
        machine: ran.run,
        end: ran.end,
    })
}

// What the report says of a run beside its records and its words.
fn trace_end_of_run<M: Finished + Drop>(
    alloc: Global,
    trace: &Trace,
    ran: &Ran<M>,
) -> Result<TraceEnd, AllocError>
    requires { (m : Machine) × M.shows ran.now.machine m }
    ensures { IfOk result (λ end. (m : Machine) → M.shows ran.now.machine m →
        end ≡ trace_end_of trace.now ran.now.end m) }
{
    let stale = stale_hits(alloc, ran.machine.records())?;
    Ok(TraceEnd {
        issued: count_issued_operations(&ran.machine, trace.cores()),
        end: ran.end,
        counts: ran.machine.counts(),
        stale,
    })
}

// What a counter has, if there is one.
fn put_counter_counts(
    out: &mut Vec<u8>,
    layout: Layout,
    counter: Option<&Counter>,
) -> Result<(), AllocError>
    ensures { OnOk result (out.new.items ≡
        out.old.items ++ counter_text layout (seen_by counter.entry)) }
{
    match counter {
        Some(counter) => put_event_counts(
            out,
            layout,
            counter.every(),
            counter.rows(),
            counter.counts(),
        ),
        None => Ok(()),
    }
}

// The report on a run, without what its counter has.
fn report_without_counts<M: Finished + Drop>(
    alloc: Global,
    layout: Layout,
    trace: &Trace,
    ran: &Ran<M>,
) -> Result<Vec<u8>, AllocError>
    requires shows { (m : Machine) × M.shows ran.now.machine m
        × Legal (flat empty) (trace_ops trace.now) m.records }
    ensures { IfOk result (λ text. (m : Machine) → M.shows ran.now.machine m →
        text.items ≡ bare_report layout trace.now ran.now.end m) }
{
    let end = trace_end_of_run(alloc, trace, ran)?;
    let values = values_of_trace_words(alloc, trace, &ran.machine)?;
    legal_trace_text(alloc, layout, trace, &end, ran.machine.records(), &values)
}

// The report on a run, with what its counter has behind it.
fn report_with_counts<M: Finished + Drop>(
    alloc: Global,
    layout: Layout,
    trace: &Trace,
    ran: &Ran<M>,
    counter: Option<&Counter>,
) -> Result<Vec<u8>, AllocError>
    requires shows { (m : Machine) × M.shows ran.now.machine m
        × Legal (flat empty) (trace_ops trace.now) m.records }
    ensures { IfOk result (λ text. (m : Machine) → M.shows ran.now.machine m →
        text.items ≡ whole_report layout trace.now ran.now.end m (seen_by counter.entry)) }
{
    let mut text = report_without_counts(alloc, layout, trace, ran)?;
    put_counter_counts(&mut text, layout, counter)?;
    put_report_closing(&mut text, layout)?;
    Ok(text)
}

/// The text that tells a run: its report, with what its counter has behind it, or its records alone.
pub(crate) fn run_text<M: Finished + Drop>(
    alloc: Global,
    layout: Layout,
    trace: &Trace,
    ran: &Ran<M>,
    records: bool,
    counter: Option<&Counter>,
) -> Result<Vec<u8>, AllocError>
    requires shows { (m : Machine) × M.shows ran.now.machine m × AreComplete m.records
        × Legal (flat empty) (trace_ops trace.now) m.records }
    ensures text { IfOk result (λ text. (m : Machine) → M.shows ran.now.machine m →
        text.items ≡ run_text records layout trace.now ran.now.end m (seen_by counter.entry)) }
    ensures stands { IfOk result (λ text. (m : Machine) → M.shows ran.now.machine m →
        records ≡ true → TellsRecords text.items m.records) }
{
    if records {
        return records_text(alloc, ran.machine.records());
    }
    report_with_counts(alloc, layout, trace, ran, counter)
}
