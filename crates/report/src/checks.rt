//! From two sources, with the texts of a trace and of records, to a sink for the verdict.
ghost use Rattle.std.specs.Prelude.{◌≡◌, ◌≢◌, ◌<◌, ◌⊎◌, length, IfErr, IfOk, IfSome, IsErrOf, List, OnOk, false};
ghost use Rattle.std.specs.FinMap.{empty};
ghost use Rattle.byte_streams.specs.Device.{AtEnd};
ghost use Rattle.physiological_order.specs.Faults.{issued_by};
ghost use Rattle.physiological_order.specs.Order.{flat};
ghost use Rattle.report_lines.specs.declared.layout.Layout.TheVariants.{Lines};
ghost use Rattle.report.specs.Answers.{IsCutOff, IsReported};
ghost use Rattle.programs.specs.declared.steps.Step.{Step};
ghost use Rattle.report.specs.Refusals.{IsRead, OnAccepted};
ghost use Rattle.report.specs.Verdicts.{HasNoVerdict, IsCheckReport, IsVerdictLine, ReadsCounted, Tells};
ghost use Rattle.report.specs.Verdicts.{TellsAll, TellsComplete, TellsVerdict, WritesCounted, is_legal};

use crate::complete::{count_records_of_core, first_core_lacking_records};
use crate::outputs::{Report, write_report};
use crate::texts::{records_of_source, trace_of_source};
use byte_streams::{Sink, Source};
use physiological_order::{Memory, Op, Record, Verdict, check};
use report_lines::Layout;
use run_results::{Done, RunError};
use std::alloc::{AllocError, Global};
use trace_reader::Trace;
use trace_texts::{check_text, lack_text};

/// `check_history` over a memory of zeros, for any number of records, in a line: all done exactly if the verdict is
/// Legal.
pub fn run_check<S: Source, R: Source, K: Sink>(
    alloc: Global,
    trace: &mut S,
    records: &mut R,
    sink: &mut K,
) -> Result<Done, RunError>
    ensures reported { IfOk result (λ done.
        IsReported (IsCheckReport (flat empty) false Lines
        (S.remaining trace.old) (R.remaining records.old) done.all_done)
        (K.contents sink.old) (K.contents sink.new)) }

    // Why there is no verdict, or not all of it.
    ensures refused { IfErr result (λ e. e ≢ RunError.Read → e ≢ RunError.Write →
        HasNoVerdict (S.remaining trace.old) (R.remaining records.old) e) }
    ensures cut_off { IsErrOf result RunError.Write → (legal : _) × IsCutOff
        (IsCheckReport (flat empty) false Lines
        (S.remaining trace.old) (R.remaining records.old) legal)
        (K.contents sink.old) (K.contents sink.new) }

    // Records are read only behind a trace that was accepted, and not at all where a call failed before its end.
    ensures later { (records.new ≡ records.old)
        ⊎ ((lanes : List (List Step)) × IsRead (S.remaining trace.old) lanes) }
    ensures untouched { S.failures trace.old < S.failures trace.new → records.new ≡ records.old }

    // Texts that were accepted were read to their end.
    ensures trace_end { OnAccepted result (IfSome (S.remaining trace.old)
        (λ known. AtEnd (S.remaining trace.new))) }
    ensures records_end { OnAccepted result (IfSome (R.remaining records.old)
        (λ known. AtEnd (R.remaining records.new))) }

    // Failures are told, and nothing else is written.
    ensures reads { ReadsCounted result
        (S.failures trace.old) (S.failures trace.new)
        (R.failures records.old) (R.failures records.new) }
    ensures writes { WritesCounted result (K.failures sink.old) (K.failures sink.new) }
    ensures nothing { IfErr result (λ e. e ≢ RunError.Write → sink.new ≡ sink.old) }
{
    let zeros = Memory::new(alloc);
    match check_history(alloc, trace, records, sink, &zeros, false, Layout::Lines) {
        Ok(done) => Ok(done),
        Err(error) => Err(error),
    }
}

/// Reads a trace, and records only if that was accepted, and writes what the checker says of the records, for the
/// operations of the trace over a memory that opens as given: one line, or one JSON object. All is done exactly if the
/// verdict is Legal and, where `complete` asks for that, each core has as many records as operations. Read and Trace
/// for the trace take precedence over those for the records, and Write comes last; on any error but Write the sink is
/// unchanged.
pub fn check_history<S: Source, R: Source, K: Sink>(
    alloc: Global,
    trace: &mut S,
    records: &mut R,
    sink: &mut K,
    opening: &Memory,
    complete: bool,
    layout: Layout,
) -> Result<Done, RunError>
    ensures reported { IfOk result (λ done.
        IsReported (IsCheckReport (flat opening.now) complete layout
        (S.remaining trace.old) (R.remaining records.old) done.all_done)
        (K.contents sink.old) (K.contents sink.new)) }

    // Why there is no verdict, or not all of it.
    ensures refused { IfErr result (λ e. e ≢ RunError.Read → e ≢ RunError.Write →
        HasNoVerdict (S.remaining trace.old) (R.remaining records.old) e) }
    ensures cut_off { IsErrOf result RunError.Write → (legal : _) × IsCutOff
        (IsCheckReport (flat opening.now) complete layout
        (S.remaining trace.old) (R.remaining records.old) legal)
        (K.contents sink.old) (K.contents sink.new) }

    // Records are read only behind a trace that was accepted, and not at all where a call failed before its end.
    ensures later { (records.new ≡ records.old)
        ⊎ ((lanes : List (List Step)) × IsRead (S.remaining trace.old) lanes) }
    ensures untouched { S.failures trace.old < S.failures trace.new → records.new ≡ records.old }

    // Texts that were accepted were read to their end.
    ensures trace_end { OnAccepted result (IfSome (S.remaining trace.old)
        (λ known. AtEnd (S.remaining trace.new))) }
    ensures records_end { OnAccepted result (IfSome (R.remaining records.old)
        (λ known. AtEnd (R.remaining records.new))) }

    // Failures are told, and nothing else is written.
    ensures reads { ReadsCounted result
        (S.failures trace.old) (S.failures trace.new)
        (R.failures records.old) (R.failures records.new) }
    ensures writes { WritesCounted result (K.failures sink.old) (K.failures sink.new) }
    ensures nothing { IfErr result (λ e. e ≢ RunError.Write → sink.new ≡ sink.old) }
{
    let report = match check_sources(alloc, trace, records, opening, complete, layout) {
        Ok(report) => report,
        Err(error) => return Err(error),
    };
    let done = Done {
        all_done: report.all_done,
    };
    write_report(sink, &report.text, done)
}

/// The report of the verdict on the trace and the records that the sources have.
pub(crate) fn check_sources<S: Source, R: Source>(
    alloc: Global,
    trace: &mut S,
    records: &mut R,
    opening: &Memory,
    complete: bool,
    layout: Layout,
) -> Result<Report, RunError>
    ensures report { IfOk result (λ report. IsCheckReport (flat opening.now) complete layout
        (S.remaining trace.old) (R.remaining records.old) report.all_done report.text.items) }
    ensures refused { IfErr result (λ e. e ≢ RunError.Read →
        HasNoVerdict (S.remaining trace.old) (R.remaining records.old) e) }
    ensures later { (records.new ≡ records.old)
        ⊎ ((lanes : List (List Step)) × IsRead (S.remaining trace.old) lanes) }
    ensures untouched { S.failures trace.old < S.failures trace.new → records.new ≡ records.old }
    ensures trace_end { OnOk result (IfSome (S.remaining trace.old)
        (λ known. AtEnd (S.remaining trace.new))) }
    ensures records_end { OnOk result (IfSome (R.remaining records.old)
        (λ known. AtEnd (R.remaining records.new))) }
    ensures reads { ReadsCounted result
        (S.failures trace.old) (S.failures trace.new)
        (R.failures records.old) (R.failures records.new) }
{
    let trace = match trace_of_source(alloc, trace) {
        Ok(trace) => trace,
        Err(error) => return Err(error),
    };
    let records = match records_of_source(alloc, records) {
        Ok(records) => records,
        Err(error) => return Err(error),
    };
    match report_on_records(alloc, trace, &records, opening, complete, layout) {
        Ok(report) => Ok(report),
        Err(AllocError) => Err(RunError::NoMemory),
    }
}

// The report on these records, for what the trace issues.
fn report_on_records(
    alloc: Global,
    trace: Trace,
    records: &[Record],
    opening: &Memory,
    complete: bool,
    layout: Layout,
) -> Result<Report, AllocError>
    ensures { IfOk result (λ report. IsVerdictLine (flat opening.now) complete layout trace records.now
        report.all_done report.text.items) }
{
    let issued = trace.into_issued()?;
    let verdict = check(alloc, opening, &issued, records)?;
    report_on_verdict(alloc, complete, layout, &issued, records, verdict)
}

// The report on records that have this verdict.
fn report_on_verdict(
    alloc: Global,
    complete: bool,
    layout: Layout,
    issued: &[Vec<Op>],
    records: &[Record],
    verdict: Verdict,
) -> Result<Report, AllocError>
    ensures { IfOk result (λ report. TellsVerdict complete layout (length issued.now)
        (issued_by issued.now) records.now verdict report.all_done report.text.items) }
{
    if complete {
        report_if_complete(alloc, layout, issued, records, verdict)
    } else {
        verdict_report(alloc, layout, verdict)
    }
}

// The report on records that have this verdict, if each operation is to have one.
fn report_if_complete(
    alloc: Global,
    layout: Layout,
    issued: &[Vec<Op>],
    records: &[Record],
    verdict: Verdict,
) -> Result<Report, AllocError>
    ensures { IfOk result (λ report. TellsComplete layout (length issued.now) (issued_by issued.now)
        records.now verdict report.all_done report.text.items) }
{
    match verdict {
        Verdict::Legal => report_on_lacking_records(alloc, layout, issued, records),
        _ => verdict_report(alloc, layout, verdict),
    }
}

// The report on legal records of which each operation is to have one.
fn report_on_lacking_records(
    alloc: Global,
    layout: Layout,
    issued: &[Vec<Op>],
    records: &[Record],
) -> Result<Report, AllocError>
    ensures { IfOk result (λ report. TellsAll layout (length issued.now) (issued_by issued.now)
        records.now report.all_done report.text.items) }
{
    match first_core_lacking_records(issued, records) {
        None => verdict_report(alloc, layout, Verdict::Legal),
        Some(core) => {
            let place = count_records_of_core(core, records);
            Ok(Report {
                text: lack_text(alloc, layout, place as u64, core as u64)?,
                all_done: false,
            })
        }
    }
}

// The report of a verdict.
fn verdict_report(alloc: Global, layout: Layout, verdict: Verdict) -> Result<Report, AllocError>
    ensures { IfOk result (λ report. Tells layout verdict report.all_done report.text.items) }
{
    Ok(Report {
        text: check_text(alloc, layout, verdict)?,
        all_done: is_legal(verdict),
    })
}

fn is_legal(verdict: Verdict) -> bool
    ensures { result ≡ is_legal verdict }
{
    matches!(verdict, Verdict::Legal)
}
