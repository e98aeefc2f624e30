//! From a source with the text of a trace to a sink for its report.
ghost use Rattle.std.specs.Prelude.{◌≡◌, ◌≢◌, IfErr, IfOk, IfSome, IsErrOf, true};
ghost use Rattle.std.specs.FinMap.{empty};
ghost use Rattle.byte_streams.specs.Device.{AtEnd};
ghost use Rattle.machine_table.specs.Machine.{Machine};
ghost use Rattle.machine_table.specs.SetUp.{is_good};
ghost use Rattle.physiological_order.specs.Order.{flat, Legal};
ghost use Rattle.trace_texts.specs.Records.{AreComplete};
ghost use Rattle.report.specs.Answers.{FailuresAreCounted, IsCutOff, IsReported};
ghost use Rattle.worker_driver.specs.declared.set_up.Driver.TheVariants.{ByPolicy, ByThreads};
ghost use Rattle.worker_driver.specs.SetUp.{config_of, driver_of};
ghost use Rattle.report.specs.Refusals.{OnAccepted};
ghost use Rattle.report.specs.Layouts.{layout_of};
ghost use Rattle.report.specs.Reports.{HasNoTraceReport, HasNoRun, IsTraceReport, TellsTraceRun, TellsOf};
ghost use Rattle.report.specs.Reports.{is_counted};
ghost use Rattle.trace_reader.specs.Steps.{trace_cores, trace_ops};
ghost use Rattle.report.specs.Runs.{is_all_done, seen_by};

use crate::one_run::{Ran, run_text, run_trace_by_policy, run_trace_by_threads};
use crate::outputs::{Report, layout_of, write_report};
use crate::texts::trace_of_source;
use byte_streams::{Sink, Source};
use event_counts::Counter;
use interleaving_core::Config;
use programs::End;
use run_options::TraceOptions;
use run_results::{Done, RunError};
use schedules::Policy;
use std::alloc::{AllocError, Global};
use std::rt::Clock;
use std::thread::Threads;
use trace_reader::Trace;
use worker_driver::{Driver, Finished, config_of, driver_of, limit_of, workers_of};

/// Reads a trace from the source, to its end if it is accepted, runs it over a memory of zeros as the options say, and
/// writes the report of the run, or its records alone. What goes out is told of a legal history, whatever the end of
/// the run. Read goes before Trace, that before BadConfig, and Write comes last; by an error but Write the sink is
/// unchanged. NoMemory comes only of a text with a step before any fault, or of a run on a good machine.
pub fn run_trace<R: Threads + Clock + Sync, S: Source, K: Sink>(
    rt: &R,
    alloc: Global,
    source: &mut S,
    sink: &mut K,
    options: &TraceOptions,
) -> Result<Done, RunError>
    ensures reported { IfOk result (λ done.
        IsReported (IsTraceReport options.now (S.remaining source.old) done.all_done)
        (K.contents sink.old) (K.contents sink.new)) }

    // Why there is no report, or not all of it.
    ensures refused { IfErr result (λ e. e ≢ RunError.Read → e ≢ RunError.Write →
        HasNoTraceReport options.now (S.remaining source.old) e) }
    ensures cut_off { IsErrOf result RunError.Write →
        (all_done : _) × IsCutOff (IsTraceReport options.now (S.remaining source.old) all_done)
        (K.contents sink.old) (K.contents sink.new) }

    // A trace that was accepted was read to its end.
    ensures end { OnAccepted result (IfSome (S.remaining source.old)
        (λ known. AtEnd (S.remaining source.new))) }

    // Failures are told, and nothing else is written.
    ensures counted { FailuresAreCounted result
        (S.failures source.old) (S.failures source.new)
        (K.failures sink.old) (K.failures sink.new) }
    ensures nothing { IfErr result (λ e. e ≢ RunError.Write → sink.new ≡ sink.old) }
{
    let trace = match trace_of_source(alloc, source) {
        Ok(trace) => trace,
        Err(error) => return Err(error),
    };
    let report = match report_of_trace(rt, alloc, &trace, options) {
        Ok(report) => report,
        Err(error) => return Err(error),
    };
    let done = Done {
        all_done: report.all_done,
    };
    write_report(sink, &report.text, done)
}

// The report on a trace, or its records.
fn report_of_trace<R: Threads + Clock + Sync>(
    rt: &R,
    alloc: Global,
    trace: &Trace,
    options: &TraceOptions,
) -> Result<Report, RunError>
    ensures report { IfOk result (λ report.
        TellsTraceRun options.now trace.now report.all_done report.text.items) }
    ensures refused { IfErr result (HasNoRun options.now trace.now) }
{
    let Some(config) = config_of(&options.run.machine, trace.cores()) else {
        return Err(RunError::BadConfig);
    };
    match run_and_report_trace(rt, alloc, trace, config, options) {
        Ok(report) => Ok(report),
        Err(AllocError) => Err(RunError::NoMemory),
    }
}

// A run of the trace on this machine, as it is told.
fn run_and_report_trace<R: Threads + Clock + Sync>(
    rt: &R,
    alloc: Global,
    trace: &Trace,
    config: Config,
    options: &TraceOptions,
) -> Result<Report, AllocError>
    requires good { is_good config ≡ true }
    requires config { config ≡ config_of options.now.run.machine (trace_cores trace.now) }
    ensures { IfOk result (λ report.
        TellsTraceRun options.now trace.now report.all_done report.text.items) }
{
    match driver_of(&options.run) {
        Driver::ByPolicy(policy) => report_by_policy(alloc, trace, config, policy, options),
        Driver::ByThreads(fair) => report_by_threads(rt, alloc, trace, config, fair, options),
    }
}

/// A run of the trace by a policy, as it is told, with what it did in numbers if that is asked for.
pub(crate) fn report_by_policy(
    alloc: Global,
    trace: &Trace,
    config: Config,
    policy: Policy,
    options: &TraceOptions,
) -> Result<Report, AllocError>
    requires good { is_good config ≡ true }
    requires config { config ≡ config_of options.now.run.machine (trace_cores trace.now) }
    requires policy { driver_of options.now.run ≡ ByPolicy policy }
    ensures { IfOk result (λ report.
        TellsTraceRun options.now trace.now report.all_done report.text.items) }
{
    let limit = limit_of(&options.run);
    if are_counts_asked(options) {
        let counter = Counter::new(alloc, config.cores, config.banks, options.every)?;
        let (ran, counter) = run_trace_by_policy(alloc, trace, config, policy, limit, counter)?;
        return report_on_trace_run(alloc, trace, &ran, options, Some(&counter));
    }
    let (ran, _) = run_trace_by_policy(alloc, trace, config, policy, limit, ())?;
    report_on_trace_run(alloc, trace, &ran, options, None)
}

// A run of the trace by threads, as it is told, with fair turns of banks or not.
fn report_by_threads<R: Threads + Clock + Sync>(
    rt: &R,
    alloc: Global,
    trace: &Trace,
    config: Config,
    fair: bool,
    options: &TraceOptions,
) -> Result<Report, AllocError>
    requires good { is_good config ≡ true }
    requires config { config ≡ config_of options.now.run.machine (trace_cores trace.now) }
    requires threads { driver_of options.now.run ≡ ByThreads fair }
    ensures { IfOk result (λ report.
        TellsTraceRun options.now trace.now report.all_done report.text.items) }
{
    let (limit, workers) = (limit_of(&options.run), workers_of(&options.run));
    let ran = run_trace_by_threads(rt, alloc, trace, config, limit, workers, fair)?;
    report_on_trace_run(alloc, trace, &ran, options, None)
}

// What is told of a run that had this counter, or none.
fn report_on_trace_run<M: Finished + Drop>(
    alloc: Global,
    trace: &Trace,
    ran: &Ran<M>,
    options: &TraceOptions,
    counter: Option<&Counter>,
) -> Result<Report, AllocError>
    requires shows { (m : Machine) × M.shows ran.now.machine m × AreComplete m.records
        × Legal (flat empty) (trace_ops trace.now) m.records }
    ensures { IfOk result (λ report. (m : Machine) → M.shows ran.now.machine m →
        TellsOf options.now.records (layout_of options.now.json) trace.now ran.now.end m (seen_by counter.entry)
        report.all_done report.text.items) }
{
    let layout = layout_of(options.json);
    let text = run_text(alloc, layout, trace, ran, options.records, counter)?;
    Ok(Report {
        text,
        all_done: is_all_done(ran.end),
    })
}

// Whether a trace's counts are asked for, and not its records.
fn are_counts_asked(options: &TraceOptions) -> bool
    ensures { result ≡ is_counted options.now }
{
    options.counts && !options.records
}

/// Whether a run ended all done.
pub(crate) fn is_all_done(end: End) -> bool
    ensures { result ≡ is_all_done end }
{
    matches!(end, End::AllDone)
}
