//! Reports on texts in memory, for a caller that has no threads: the calling thread makes all runs.
ghost use Rattle.std.specs.Prelude.{◌≡◌, IfErr, IfOk, Ok, Some, false, length, min};
ghost use Rattle.std.specs.FinMap.{empty};
ghost use Rattle.byte_streams.specs.Device.{Counts, GivesBytes};
ghost use Rattle.physiological_order.specs.Order.{flat};
ghost use Rattle.report.specs.Litmus.{HasNoReportInMemory, IsLitmusReport};
ghost use Rattle.report.specs.Openings.{HasNoOpenedReport, IsOpenedReport};
ghost use Rattle.report.specs.Reports.{HasNoRun, HasNoTraceReport, IsTraceReport, TellsTraceRun};
ghost use Rattle.report.specs.Verdicts.{HasNoVerdict, IsCheckReport};
ghost use Rattle.report_lines.specs.declared.layout.Layout.TheVariants.{Lines};
ghost use Rattle.worker_driver.specs.SetUp.{FollowsPolicy};

use crate::checks::check_sources;
use crate::litmus::{litmus_test_of, report_on_litmus_runs};
use crate::openings::opening_of;
use crate::outputs::Report;
use crate::reports::report_by_policy;
use crate::texts::trace_of_source;
use byte_streams::{DeviceError, Source};
use physiological_order::Memory;
use report_lines::Layout;
use run_options::{LitmusOptions, TraceOptions};
use run_results::RunError;
use std::alloc::{AllocError, Global};
use std::io::Read;
use trace_reader::Trace;
use worker_driver::{Driver, config_of, driver_of, policy_runs_by_options};

// Bytes in memory, as a source that never fails.
#[derive(Drop)]
struct InMemory<'a> {
    rest: &'a [u8],
}

impl Source for InMemory<'_> {
    ghost use Rattle.std.specs.Prelude.{Some};

    ghost remaining = { λ source. Some source.rest.now };

    ghost failures = { λ source. 0 };

    // As many bytes as there are, or as the buffer holds.
    fn read(&mut self, buffer: &mut [u8]) -> Result<usize, DeviceError>
        ensures bytes { GivesBytes (Some self.old.rest.now) (Some self.new.rest.now) result buffer.new }
        ensures count { Counts 0 0 result }
        ensures most { result ≡ Ok (min (length self.old.rest.now) (length buffer.old)) }
    {
        match self.rest.read(buffer) {
            Ok(count) => Ok(count),
            Err(_) => unreachable!(),
        }
    }
}

/// The report on the litmus test that a text is, run as the options say by a schedule without threads. Litmus takes
/// precedence over BadConfig. NoMemory comes only of a text of at most 65,536 bytes without a fault before its initial
/// block, or of runs on a good machine.
pub fn litmus_report(
    alloc: Global,
    text: &[u8],
    options: &LitmusOptions,
) -> Result<Report, RunError>
    requires { FollowsPolicy options.now.run }
    ensures report { IfOk result (λ report.
        IsLitmusReport options.now text.now report.all_done report.text.items) }
    ensures refused { IfErr result (HasNoReportInMemory options.now text.now) }
{
    let test = match litmus_test_of(alloc, text) {
        Ok(test) => test,
        Err(error) => return Err(error),
    };
    match policy_runs_by_options(alloc, &test, options) {
        Ok(Some(runs)) => report_on_litmus_runs(alloc, &test, &runs, options),
        Ok(None) => Err(RunError::BadConfig),
        Err(AllocError) => Err(RunError::NoMemory),
    }
}

/// The report on a run of the trace that a text is, or its records, by a schedule without threads. Trace takes
/// precedence over BadConfig.
pub fn trace_report(alloc: Global, text: &[u8], options: &TraceOptions) -> Result<Report, RunError>
    requires { FollowsPolicy options.now.run }
    ensures report { IfOk result (λ report.
        IsTraceReport options.now (Some text.now) report.all_done report.text.items) }
    ensures refused { IfErr result (HasNoTraceReport options.now (Some text.now)) }
{
    let mut source = InMemory { rest: text };
    let trace = match trace_of_source(alloc, &mut source) {
        Ok(trace) => trace,
        Err(error) => return Err(error),
    };
    report_of_trace_by_policy(alloc, &trace, options)
}

// The report on a trace, or its records.
fn report_of_trace_by_policy(
    alloc: Global,
    trace: &Trace,
    options: &TraceOptions,
) -> Result<Report, RunError>
    requires { FollowsPolicy options.now.run }
    ensures report { IfOk result (λ report.
        TellsTraceRun options.now trace.now report.all_done report.text.items) }
    ensures refused { IfErr result (HasNoRun options.now trace.now) }
{
    let Some(config) = config_of(&options.run.machine, trace.cores()) else {
        return Err(RunError::BadConfig);
    };
    match driver_of(&options.run) {
        Driver::ByPolicy(policy) => match report_by_policy(alloc, trace, config, policy, options) {
            Ok(report) => Ok(report),
            Err(AllocError) => Err(RunError::NoMemory),
        },
        Driver::ByThreads(_) => unreachable!(),
    }
}

/// The line of the verdict on records for what a trace issues over a memory of zeros, both as texts. The trace's fault
/// takes precedence over the records'.
pub fn check_report(alloc: Global, trace: &[u8], records: &[u8]) -> Result<Report, RunError>
    ensures report { IfOk result (λ report.
        IsCheckReport (flat empty) false Lines (Some trace.now) (Some records.now)
        report.all_done report.text.items) }
    ensures refused { IfErr result (HasNoVerdict (Some trace.now) (Some records.now)) }
{
    let mut trace = InMemory { rest: trace };
    let mut records = InMemory { rest: records };
    let zeros = Memory::new(alloc);
    check_sources(
        alloc,
        &mut trace,
        &mut records,
        &zeros,
        false,
        Layout::Lines,
    )
}

/// The report on the verdict on records for what a trace issues, over the memory that an opening gives, all three as
/// texts; with `complete`, as `check_history` has it. The opening's fault takes precedence over the trace's, and that
/// over the records'.
pub fn opened_report(
    alloc: Global,
    opening: &[u8],
    trace: &[u8],
    records: &[u8],
    complete: bool,
    layout: Layout,
) -> Result<Report, RunError>
    ensures report { IfOk result (λ report. IsOpenedReport complete layout
        opening.now trace.now records.now report.all_done report.text.items) }
    ensures refused { IfErr result (HasNoOpenedReport opening.now trace.now records.now) }
{
    let mut opening = InMemory { rest: opening };
    let memory = match opening_of(alloc, &mut opening) {
        Ok(memory) => memory,
        Err(error) => return Err(error),
    };
    let mut trace = InMemory { rest: trace };
    let mut records = InMemory { rest: records };
    check_sources(alloc, &mut trace, &mut records, &memory, complete, layout)
}
