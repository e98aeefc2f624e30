//! From a source with the text of a trace to a sink for its report, while the trace is run.
ghost use Rattle.std.specs.Prelude.{◌≡◌, ◌≢◌, [], IfErr, IfOk, IfSome, IsErrOf, List, None, OnOk, true};
ghost use Rattle.byte_streams.specs.Device.{AtEnd};
ghost use Rattle.machine_table.specs.SetUp.{is_good};
ghost use Rattle.physiological_order.specs.declared.operation.Record.{Record};
ghost use Rattle.worker_driver.specs.SetUp.{FollowsPolicy, driver_of};
ghost use Rattle.worker_driver.specs.declared.set_up.Driver.TheVariants.{ByPolicy};
ghost use Rattle.report.specs.Answers.{FailuresAreCounted, IsCutOff, IsReported};
ghost use Rattle.report.specs.Progress.{IsProgress, IsToldReport};
ghost use Rattle.report.specs.StreamParts.{IsRunning, IsStopped};
ghost use Rattle.report.specs.Streams.{HasNoStream, IsBegun, IsStreamReport, IsStreamText, stream_config};

use crate::progress::write_progress_if_due;
use crate::reports::is_all_done;
use crate::stream_parts::{
    are_words_asked, make_piece, read_rest_of_trace, stream_config, write_end_report,
    write_records_if_asked,
};
use byte_streams::{Sink, Source};
use interleaving_core::Config;
use machine_theorem::laws::every_history_is_legal;
use run_options::StreamOptions;
use run_results::{Done, RunError};
use schedules::Policy;
use schedules::laws::runs_serve_programs;
use std::alloc::Global;
use streamed_runs::StreamedRun;
use trace_reader::StepQueue;
use worker_driver::{Driver, driver_of, limit_of};

/// Runs a trace by rounds or by a seed over a memory of zeros while it reads the trace from the source, and writes the
/// report of the run, or each record when its operation has completed. It keeps neither the trace nor the history: its
/// memory is that of the machine, of the steps that were read ahead, of a time for each word that was written, and of
/// the words that the trace names, if the report is to have them. What goes out reports a legal history, however the
/// run ends. If the options ask for it, lines on `errors` tell how far the run is.
///
/// BadConfig comes first, before anything is read: of a machine with a value out of its range, or with other than 1 to
/// 64 cores. A refused line is Trace, with its number and its cause; so is, as BadCore, one with a step of a core that
/// the machine hasn't. That comes once the line is read, behind the records that went out before. So do Read, of a
/// failed call of the source, and NoMemory. The rest of the text is read even if the run has ended.
pub fn run_stream<S: Source, K: Sink, E: Sink>(
    alloc: Global,
    source: &mut S,
    sink: &mut K,
    errors: &mut E,
    options: &StreamOptions,
) -> Result<Done, RunError>
    requires { FollowsPolicy options.now.run }
    ensures reported { IfOk result (λ done.
        IsReported (IsStreamReport options.now (S.remaining source.old) done.all_done)
        (K.contents sink.old) (K.contents sink.new)) }

    // Why there is no report, and what went out until then: records of the run's first turns, or nothing.
    ensures refused { IfErr result (λ e. e ≢ RunError.Read → e ≢ RunError.Write →
        HasNoStream options.now (S.remaining source.old) e) }
    ensures begun { IfErr result (λ e. e ≢ RunError.Write →
        IsReported (IsBegun options.now (S.remaining source.old))
        (K.contents sink.old) (K.contents sink.new)) }
    ensures cut_off { IsErrOf result RunError.Write →
        IsCutOff (IsStreamText options.now (S.remaining source.old))
        (K.contents sink.old) (K.contents sink.new) }
    ensures untouched { IsErrOf result RunError.BadConfig →
        (source.new ≡ source.old) × (sink.new ≡ sink.old) }

    // What was told meanwhile, of a run's first records. By the last line it came to as many multiples as at the end;
    // but lines end where a call of `errors` fails, which changes nothing else.
    ensures told { IfOk result (λ done. IsReported (IsToldReport options.now
        (S.remaining source.old) done.all_done (E.contents errors.old) (E.contents errors.new)
        (E.failures errors.old) (E.failures errors.new))
        (K.contents sink.old) (K.contents sink.new)) }
    ensures telling { (records : List Record) × IsProgress options.now (S.remaining source.old)
        records (E.contents errors.old) (E.contents errors.new)
        (E.failures errors.old) (E.failures errors.new) }
    ensures quiet { options.now.progress ≡ None → errors.new ≡ errors.old }
    ensures untold { IsErrOf result RunError.BadConfig → errors.new ≡ errors.old }

    // The text was read to its end, and failures are told.
    ensures end { OnOk result (IfSome (S.remaining source.old)
        (λ known. AtEnd (S.remaining source.new))) }
    ensures counted { FailuresAreCounted result
        (S.failures source.old) (S.failures source.new)
        (K.failures sink.old) (K.failures sink.new) }
{
    let Some(config) = stream_config(options) else {
        return Err(RunError::BadConfig);
    };
    match driver_of(&options.run) {
        Driver::ByPolicy(policy) => stream_on_machine(
            alloc, source, sink, errors, options, config, policy,
        ),
        Driver::ByThreads(_) => unreachable!(),
    }
}

// The run of a good machine, as it is told.
fn stream_on_machine<S: Source, K: Sink, E: Sink>(
    alloc: Global,
    source: &mut S,
    sink: &mut K,
    errors: &mut E,
    options: &StreamOptions,
    config: Config,
    policy: Policy,
) -> Result<Done, RunError>
    requires good { is_good config ≡ true }
    requires config { config ≡ stream_config options.now }
    requires policy { driver_of options.now.run ≡ ByPolicy policy }
    ensures told { IfOk result (λ done. IsReported (IsToldReport options.now
        (S.remaining source.old) done.all_done (E.contents errors.old) (E.contents errors.new)
        (E.failures errors.old) (E.failures errors.new))
        (K.contents sink.old) (K.contents sink.new)) }
    ensures telling { (records : List Record) × IsProgress options.now (S.remaining source.old)
        records (E.contents errors.old) (E.contents errors.new)
        (E.failures errors.old) (E.failures errors.new) }
    ensures quiet { options.now.progress ≡ None → errors.new ≡ errors.old }
    ensures end { OnOk result (IfSome (S.remaining source.old)
        (λ known. AtEnd (S.remaining source.new))) }
    ensures none_failed { OnOk result ((S.failures source.new ≡ S.failures source.old)
        × (K.failures sink.new ≡ K.failures sink.old)) }
    ensures stopped { IfErr result (IsStopped options.now (S.remaining source.old)
        (K.contents sink.old) (K.contents sink.new) (S.failures source.old) (S.failures source.new)
        (K.failures sink.old) (K.failures sink.new)) }
{
    let (names, limit) = (are_words_asked(options), limit_of(&options.run));
    let Ok(mut run) = StreamedRun::new(alloc, config, policy, limit, names) else {
        return Err(RunError::NoMemory);
    };
    stream_in_pieces(alloc, &mut run, source, sink, errors, options)
}

// Pieces of a run that has made no turn, until it is over; then the rest of the text, and the report.
fn stream_in_pieces<S: Source, K: Sink, E: Sink>(
    alloc: Global,
    run: &mut StreamedRun,
    source: &mut S,
    sink: &mut K,
    errors: &mut E,
    options: &StreamOptions,
) -> Result<Done, RunError>
    requires good { is_good (stream_config options.now) ≡ true }
    requires running { IsRunning options.now (S.remaining source.old) run.old
        (S.remaining source.old) }
    requires none { run.old.machine.records ≡ [] }
    ensures told { IfOk result (λ done. IsReported (IsToldReport options.now
        (S.remaining source.old) done.all_done (E.contents errors.old) (E.contents errors.new)
        (E.failures errors.old) (E.failures errors.new))
        (K.contents sink.old) (K.contents sink.new)) }
    ensures telling { (records : List Record) × IsProgress options.now (S.remaining source.old)
        records (E.contents errors.old) (E.contents errors.new)
        (E.failures errors.old) (E.failures errors.new) }
    ensures quiet { options.now.progress ≡ None → errors.new ≡ errors.old }
    ensures end { OnOk result (IfSome (S.remaining source.old)
        (λ known. AtEnd (S.remaining source.new))) }
    ensures none_failed { OnOk result ((S.failures source.new ≡ S.failures source.old)
        × (K.failures sink.new ≡ K.failures sink.old)) }
    ensures stopped { IfErr result (IsStopped options.now (S.remaining source.old)
        (K.contents sink.old) (K.contents sink.new) (S.failures source.old) (S.failures source.new)
        (K.failures sink.old) (K.failures sink.new)) }
{
    every_history_is_legal();
    runs_serve_programs::<StepQueue>();
    let mut goes_on = true;
    let mut tells = true;
    'pieces: while goes_on {
        let before = run.kinds().completed;
        goes_on = match make_piece(run, source) {
            Ok(goes_on) => goes_on,
            Err(error) => return Err(error),
        };
        if let Err(error) = write_records_if_asked(alloc, sink, options.records, run.done()) {
            return Err(error);
        }
        tells = write_progress_if_due(errors, tells, options.progress, before, run);
    }
    if let Err(error) = read_rest_of_trace(run, source) {
        return Err(error);
    }
    if let Err(error) = write_end_report(alloc, sink, options, run) {
        return Err(error);
    }
    Ok(Done {
        all_done: is_all_done(run.end()),
    })
}
