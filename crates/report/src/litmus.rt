//! From a source with a litmus text to a sink for its report.
ghost use Rattle.std.specs.Prelude.{◌≡◌, ◌≢◌, ◌≤◌, ◌+◌, ℕ, IfErr, IfOk, IsErrOf, List};
ghost use Rattle.std.specs.List.{list_all};
ghost use Rattle.byte_streams.specs.Whole.{TakesAtMost};
ghost use Rattle.litmus_reader.specs.Grammar.{IsTest};
ghost use Rattle.litmus_reader.specs.TestViews.{test_of};
ghost use Rattle.report.specs.Answers.{FailuresAreCounted, IsCutOff, IsReported};
ghost use Rattle.report_text.specs.Ends.{ends_as};
ghost use Rattle.report.specs.Bytes.{OfBytes};
ghost use Rattle.report.specs.Litmus.{AreRuns, HasNoReport, HasNoReportInMemory, HasNoTestInMemory};
ghost use Rattle.report.specs.Litmus.{IsLitmusReport, litmus_refusal};

use crate::outputs::{Report, layout_of, write_report};
use crate::sources::read_text;
use byte_streams::{Sink, Source};
use litmus_reader::{Kind, LitmusError, Test, read};
use programs::End;
use report_text::{RunEnd, litmus_text};
use run_options::LitmusOptions;
use run_results::{Done, RunError};
use std::alloc::{AllocError, Global};
use std::rt::Clock;
use std::thread::Threads;
use worker_driver::runs_by_options;

/// Reads a litmus test to the end of the source, runs it as the options say, and writes the report of the runs. Each
/// end state in the report is an outcome of the sequential machine. If the source has more bytes than a litmus text
/// may have, the call doesn't read it to its end. Read takes precedence over Litmus, that over BadConfig, and Write
/// comes last; on any error but Write the sink is unchanged.
pub fn run_litmus<R: Threads + Clock + Sync, S: Source, K: Sink>(
    rt: &R,
    alloc: Global,
    source: &mut S,
    sink: &mut K,
    options: &LitmusOptions,
) -> Result<Done, RunError>
    ensures reported { IfOk result (λ done. OfBytes (S.remaining source.old) (λ bytes.
        IsReported (IsLitmusReport options.now bytes done.all_done)
        (K.contents sink.old) (K.contents sink.new))) }

    // Why there is no report, or not all of it.
    ensures refused { IfErr result (λ e. e ≢ RunError.Read → e ≢ RunError.Write →
        OfBytes (S.remaining source.old) (λ bytes. HasNoReport options.now bytes e)) }
    ensures cut_off { IsErrOf result RunError.Write → OfBytes (S.remaining source.old) (λ bytes.
        (all_done : _) × IsCutOff (IsLitmusReport options.now bytes all_done)
        (K.contents sink.old) (K.contents sink.new)) }

    // A litmus text has at most 65,536 bytes, and at most one block of 4,096 is taken beyond them.
    ensures taken { TakesAtMost (65536 + 4096) (S.remaining source.old) (S.remaining source.new) }

    // Failures are told, and nothing else is written.
    ensures counted { FailuresAreCounted result
        (S.failures source.old) (S.failures source.new)
        (K.failures sink.old) (K.failures sink.new) }
    ensures nothing { IfErr result (λ e. e ≢ RunError.Write → sink.new ≡ sink.old) }
{
    let bytes = read_text(alloc, source)?;
    let report = report_of_litmus_text(rt, alloc, &bytes, options)?;
    let done = Done {
        all_done: report.all_done,
    };
    write_report(sink, &report.text, done)
}

/// The litmus test that these bytes are, or why they are none.
pub(crate) fn litmus_test_of(alloc: Global, bytes: &[u8]) -> Result<Test, RunError>
    ensures found { IfOk result (λ test. IsTest bytes.now (test_of test)) }
    ensures few { IfOk result (λ test. (test_of test).threads ≤ 16) }
    ensures refused { IfErr result (HasNoTestInMemory bytes.now) }
{
    match read(alloc, bytes) {
        Ok(test) => Ok(test),
        Err(error) => Err(litmus_refusal(error)),
    }
}

// The report on the litmus test that these bytes are.
fn report_of_litmus_text<R: Threads + Clock + Sync>(
    rt: &R,
    alloc: Global,
    bytes: &[u8],
    options: &LitmusOptions,
) -> Result<Report, RunError>
    ensures report { IfOk result (λ report.
        IsLitmusReport options.now bytes.now report.all_done report.text.items) }
    ensures refused { IfErr result (HasNoReportInMemory options.now bytes.now) }
{
    let test = match litmus_test_of(alloc, bytes) {
        Ok(test) => test,
        Err(error) => return Err(error),
    };
    match runs_by_options(rt, alloc, &test, options) {
        Ok(Some(runs)) => report_on_litmus_runs(alloc, &test, &runs, options),
        Ok(None) => Err(RunError::BadConfig),
        Err(AllocError) => Err(RunError::NoMemory),
    }
}

/// The report on these runs of a test.
pub(crate) fn report_on_litmus_runs(
    alloc: Global,
    test: &Test,
    runs: &[RunEnd],
    options: &LitmusOptions,
) -> Result<Report, RunError>
    ensures report { IfOk result (λ report. (bytes : List ℕ) →
        AreRuns options.now bytes (test_of test.now) runs.now →
        IsLitmusReport options.now bytes report.all_done report.text.items) }
    ensures refused { IfErr result (λ e. e ≡ RunError.NoMemory) }
{
    match litmus_text(alloc, layout_of(options.json), test, runs) {
        Ok(text) => Ok(Report {
            text,
            all_done: are_runs_all_done(runs),
        }),
        Err(AllocError) => Err(RunError::NoMemory),
    }
}

// Why a text is refused: want of memory is no fault of it.
fn litmus_refusal(error: LitmusError) -> RunError
    ensures { result ≡ litmus_refusal error }
{
    if matches!(error.kind, Kind::NoMemory) {
        RunError::NoMemory
    } else {
        RunError::Litmus(error)
    }
}

// Whether every run ended all done.
fn are_runs_all_done(runs: &[RunEnd]) -> bool
    ensures { result ≡ list_all (ends_as End.AllDone) runs.now }
{
    runs.iter().all(|run| matches!(run.end, End::AllDone))
}
