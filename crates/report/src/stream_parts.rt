//! The parts of a run of a trace that is read as the run goes: its machine, its pieces, and what is written of them.
ghost use Rattle.std.specs.Prelude.{◌≡◌, ◌<◌, ◌++◌, ℕ, List, Option, IfErr, IfOk, IfSome, None, OnOk, Ok};
ghost use Rattle.std.specs.Prelude.{◌&&◌, false, nat_lt, not, true};
ghost use Rattle.byte_streams.specs.Device.{Grows};
ghost use Rattle.machine_table.specs.SetUp.{is_good};
ghost use Rattle.run_options.specs.declared.options.StreamOptions.{StreamOptions};
ghost use Rattle.streamed_runs.specs.StreamStates.{IsOver};
ghost use Rattle.trace_texts.specs.Records.{AreRanged};
ghost use Rattle.report.specs.Layouts.{layout_of};
ghost use Rattle.report.specs.Refusals.{IsUnread};
ghost use Rattle.report.specs.StreamParts.{HasRun, IsNotWritten, IsRunning, ahead_refusal, ended_text};
ghost use Rattle.report.specs.StreamParts.{text_if, text_unless};
ghost use Rattle.report.specs.Streams.{IsStreamFault, stream_config};

use crate::outputs::{layout_of, write_text};
use crate::texts::trace_refusal;
use byte_streams::{Sink, Source};
use interleaving_core::Config;
use physiological_order::Record;
use report_lines::{Layout, put_report_closing};
use run_options::StreamOptions;
use run_results::RunError;
use std::alloc::{AllocError, Global};
use streamed_runs::StreamedRun;
use trace_lines::{Kind, TraceError};
use trace_reader::AheadError;
use trace_texts::{TraceEnd, records_text, told_trace_text};
use worker_driver::config_of;

/// The set-up of the machine that the options ask for, if no value is out of its range.
pub(crate) fn stream_config(options: &StreamOptions) -> Option<Config>
    ensures good { IfSome result (λ config.
        (config ≡ stream_config options.now) × (is_good config ≡ true)) }
    ensures bad { result ≡ None → is_good (stream_config options.now) ≡ false }
{
    if options.cores > 64 {
        return None;
    }
    config_of(&options.run.machine, options.cores as u32)
}

/// Whether the report is to have the words that the trace names.
pub(crate) fn are_words_asked(options: &StreamOptions) -> bool
    ensures { result ≡ (options.now.words && not options.now.records) }
{
    options.words && !options.records
}

// Why a run can't go on, as it is reported.
fn ahead_refusal(error: AheadError) -> RunError
    ensures { result ≡ ahead_refusal error }
{
    match error {
        AheadError::Text(error) => trace_refusal(error),
        AheadError::NoQueue(line) => RunError::Trace(TraceError {
            line,
            kind: Kind::BadCore,
        }),
        AheadError::NoMemory => RunError::NoMemory,
    }
}

/// Makes one more piece of the run: whether it goes on.
pub(crate) fn make_piece<S: Source>(run: &mut StreamedRun, source: &mut S) -> Result<bool, RunError>
    ensures runs { OnOk result ((options : StreamOptions) (known : Option (List ℕ)) →
        IsRunning options known run.old (S.remaining source.old) →
        IsRunning options known run.new (S.remaining source.new)) }
    ensures added { OnOk result (run.new.machine.records ≡ run.old.machine.records ++ run.new.done) }
    ensures goes_on { IfOk result (λ goes_on. goes_on ≡ nat_lt 0 run.new.left) }
    ensures further { result ≡ Ok true → run.new.left < run.old.left }
    ensures none_failed { OnOk result (S.failures source.new ≡ S.failures source.old) }
    ensures refused { IfErr result (λ e. (options : StreamOptions) (known : Option (List ℕ)) →
        IsRunning options known run.old (S.remaining source.old) →
        IsUnread (IsStreamFault options.cores known) (Unit {0})
        (S.failures source.old) (S.failures source.new) e) }
{
    match run.run_next_piece(source) {
        Ok(goes_on) => Ok(goes_on),
        Err(error) => Err(ahead_refusal(error)),
    }
}

/// Reads the rest of the text, once the run is over.
pub(crate) fn read_rest_of_trace<S: Source>(
    run: &mut StreamedRun,
    source: &mut S,
) -> Result<(), RunError>
    ensures ended { OnOk result ((options : StreamOptions) (known : Option (List ℕ)) →
        IsRunning options known run.old (S.remaining source.old) → IsOver run.old →
        HasRun options known run.new (S.remaining source.new)) }
    ensures stays { run.new.machine ≡ run.old.machine }
    ensures none_failed { OnOk result (S.failures source.new ≡ S.failures source.old) }
    ensures refused { IfErr result (λ e. (options : StreamOptions) (known : Option (List ℕ)) →
        IsRunning options known run.old (S.remaining source.old) →
        IsUnread (IsStreamFault options.cores known) (Unit {0})
        (S.failures source.old) (S.failures source.new) e) }
{
    match run.read_rest_of_text(source) {
        Ok(()) => Ok(()),
        Err(error) => Err(ahead_refusal(error)),
    }
}

/// Writes the text of records, if they are asked for.
pub(crate) fn write_records_if_asked<K: Sink>(
    alloc: Global,
    sink: &mut K,
    asked: bool,
    records: &[Record],
) -> Result<(), RunError>
    ensures all { OnOk result (Grows (K.contents sink.old) (K.contents sink.new)
        (text_if asked records.now)) }
    ensures ranged { OnOk result (asked ≡ true → AreRanged records.now) }
    ensures none_failed { OnOk result (K.failures sink.new ≡ K.failures sink.old) }
    ensures failed { IfErr result (IsNotWritten (K.contents sink.old) (K.contents sink.new)
        (K.failures sink.old) (K.failures sink.new) (text_if asked records.now)) }
{
    if !asked {
        return Ok(());
    }
    let Ok(text) = records_text(alloc, records) else {
        return Err(RunError::NoMemory);
    };
    write_text(sink, &text)
}

// The report on a run that has ended.
fn text_of_ended_run(
    alloc: Global,
    layout: Layout,
    run: &StreamedRun,
) -> Result<Vec<u8>, AllocError>
    ensures { IfOk result (λ text. text.items ≡ ended_text layout run.now) }
{
    let end = TraceEnd {
        issued: run.issued(),
        end: run.end(),
        counts: run.counts(),
        stale: run.stale_hits(),
    };
    let values = run.values()?;
    let cores = run.cores_met().max(1);
    let mut text = told_trace_text(alloc, layout, cores, &end, run.kinds(), &values)?;
    put_report_closing(&mut text, layout)?;
    Ok(text)
}

/// Writes the report on a run that has ended, unless its records are asked for.
pub(crate) fn write_end_report<K: Sink>(
    alloc: Global,
    sink: &mut K,
    options: &StreamOptions,
    run: &StreamedRun,
) -> Result<(), RunError>
    ensures all { OnOk result (Grows (K.contents sink.old) (K.contents sink.new)
        (text_unless options.now.records (layout_of options.now.json) run.now)) }
    ensures none_failed { OnOk result (K.failures sink.new ≡ K.failures sink.old) }
    ensures failed { IfErr result (IsNotWritten (K.contents sink.old) (K.contents sink.new)
        (K.failures sink.old) (K.failures sink.new)
        (text_unless options.now.records (layout_of options.now.json) run.now)) }
{
    if options.records {
        return Ok(());
    }
    let Ok(text) = text_of_ended_run(alloc, layout_of(options.json), run) else {
        return Err(RunError::NoMemory);
    };
    write_text(sink, &text)
}
