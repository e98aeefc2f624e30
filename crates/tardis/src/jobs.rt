//! The jobs that words ask for, each done on its files.

ghost use Rattle.std.specs.Prelude.{◌≡◌, IfErr};
ghost use Rattle.physiological_order.specs.Order.{flat};
ghost use Rattle.tardis.specs.Answers.{CanBeDone, Checks, ChecksOver, Does, ListsEndsOf, OnFile, OnFiles, OnOpening};
ghost use Rattle.tardis.specs.Answers.{OpensNamed, RunsAndTells, RunsLitmus, RunsOn, RunsTrace, devices};
ghost use Rattle.worker_driver.specs.SetUp.{FollowsPolicy};

use crate::files::Files;
use byte_streams::{DeviceError, Sink, Source};
use command_line::Job;
use physiological_order::Memory;
use report::{check_history, layout_of, opening_of, run_ends, run_litmus, run_stream, run_trace};
use run_options::{CheckOptions, EndsOptions, LitmusOptions, StreamOptions, TraceOptions};
use run_results::{Done, RunError};
use std::alloc::Global;
use std::rt::Clock;
use std::thread::Threads;

/// Does a job that can be done, and opens all its files first. Lines that tell how far a run is go to `errors`.
pub(crate) fn run_job<R: Threads + Clock + Sync, F: Files, K: Sink, E: Sink>(
    rt: &R,
    alloc: Global,
    files: &F,
    job: &Job<'_>,
    out: &mut K,
    errors: &mut E,
) -> Result<Done, RunError>
    requires { CanBeDone job.now }
    ensures { Does (devices F.File.remaining F.File.failures K.contents K.failures)
        (devices F.File.remaining F.File.failures E.contents E.failures)
        (F.opens files.now) job.now out.old out.new errors.old errors.new result }
{
    match job {
        Job::Litmus(options, name) => run_opened_litmus(rt, alloc, files.open(name), options, out),
        Job::Ends(options, name) => list_opened_ends(alloc, files.open(name), options, out),
        Job::Trace(options, name) => run_opened_trace(rt, alloc, files.open(name), options, out),
        Job::Stream(options, name) => stream_opened_trace(
            alloc,
            files.open(name),
            options,
            out,
            errors,
        ),
        Job::Check(options, opening, trace, records) => {
            let opening = open_file_if_named(files, *opening);
            let trace = files.open(trace);
            let records = files.open(records);
            check_opened_files(alloc, options, opening, trace, records, out)
        }
    }
}

// Runs the litmus test of a file that was opened.
fn run_opened_litmus<R: Threads + Clock + Sync, S: Source + Drop, K: Sink>(
    rt: &R,
    alloc: Global,
    opened: Result<S, DeviceError>,
    options: &LitmusOptions,
    out: &mut K,
) -> Result<Done, RunError>
    ensures { OnFile (devices S.remaining S.failures K.contents K.failures)
        (RunsLitmus (devices S.remaining S.failures K.contents K.failures) options.now) opened
        out.old out.new result }
{
    match opened {
        Ok(file) => run_litmus_file(rt, alloc, file, options, out),
        Err(DeviceError) => Err(RunError::Read),
    }
}

fn run_litmus_file<R: Threads + Clock + Sync, S: Source + Drop, K: Sink>(
    rt: &R,
    alloc: Global,
    file: S,
    options: &LitmusOptions,
    out: &mut K,
) -> Result<Done, RunError>
    ensures { (left : S) × RunsOn (devices S.remaining S.failures K.contents K.failures)
        (RunsLitmus (devices S.remaining S.failures K.contents K.failures) options.now) file left
        out.old out.new result }
{
    let mut source = file;
    run_litmus(rt, alloc, &mut source, out, options)
}

// Lists the ends of the litmus test of a file that was opened.
fn list_opened_ends<S: Source + Drop, K: Sink>(
    alloc: Global,
    opened: Result<S, DeviceError>,
    options: &EndsOptions,
    out: &mut K,
) -> Result<Done, RunError>
    ensures { OnFile (devices S.remaining S.failures K.contents K.failures)
        (ListsEndsOf (devices S.remaining S.failures K.contents K.failures) options.now) opened
        out.old out.new result }
{
    match opened {
        Ok(file) => list_ends_of_file(alloc, file, options, out),
        Err(DeviceError) => Err(RunError::Read),
    }
}

fn list_ends_of_file<S: Source + Drop, K: Sink>(
    alloc: Global,
    file: S,
    options: &EndsOptions,
    out: &mut K,
) -> Result<Done, RunError>
    ensures { (left : S) × RunsOn (devices S.remaining S.failures K.contents K.failures)
        (ListsEndsOf (devices S.remaining S.failures K.contents K.failures) options.now) file left
        out.old out.new result }
{
    let mut source = file;
    run_ends(alloc, &mut source, out, options)
}

// Runs the trace of a file that was opened.
fn run_opened_trace<R: Threads + Clock + Sync, S: Source + Drop, K: Sink>(
    rt: &R,
    alloc: Global,
    opened: Result<S, DeviceError>,
    options: &TraceOptions,
    out: &mut K,
) -> Result<Done, RunError>
    ensures { OnFile (devices S.remaining S.failures K.contents K.failures)
        (RunsTrace (devices S.remaining S.failures K.contents K.failures) options.now) opened
        out.old out.new result }
{
    match opened {
        Ok(file) => run_trace_file(rt, alloc, file, options, out),
        Err(DeviceError) => Err(RunError::Read),
    }
}

fn run_trace_file<R: Threads + Clock + Sync, S: Source + Drop, K: Sink>(
    rt: &R,
    alloc: Global,
    file: S,
    options: &TraceOptions,
    out: &mut K,
) -> Result<Done, RunError>
    ensures { (left : S) × RunsOn (devices S.remaining S.failures K.contents K.failures)
        (RunsTrace (devices S.remaining S.failures K.contents K.failures) options.now) file left
        out.old out.new result }
{
    let mut source = file;
    run_trace(rt, alloc, &mut source, out, options)
}

// Runs the trace of a file that was opened while it reads it.
fn stream_opened_trace<S: Source + Drop, K: Sink, E: Sink>(
    alloc: Global,
    opened: Result<S, DeviceError>,
    options: &StreamOptions,
    out: &mut K,
    errors: &mut E,
) -> Result<Done, RunError>
    requires { FollowsPolicy options.now.run }
    ensures run { OnFile (devices S.remaining S.failures K.contents K.failures)
        (RunsAndTells (devices S.remaining S.failures K.contents K.failures)
        (devices S.remaining S.failures E.contents E.failures) options.now errors.old errors.new)
        opened out.old out.new result }
    ensures quiet { IfErr opened (λ error. errors.new ≡ errors.old) }
{
    match opened {
        Ok(file) => stream_trace_file(alloc, file, options, out, errors),
        Err(DeviceError) => Err(RunError::Read),
    }
}

fn stream_trace_file<S: Source + Drop, K: Sink, E: Sink>(
    alloc: Global,
    file: S,
    options: &StreamOptions,
    out: &mut K,
    errors: &mut E,
) -> Result<Done, RunError>
    requires { FollowsPolicy options.now.run }
    ensures { (left : S) × RunsOn (devices S.remaining S.failures K.contents K.failures)
        (RunsAndTells (devices S.remaining S.failures K.contents K.failures)
        (devices S.remaining S.failures E.contents E.failures) options.now errors.old errors.new)
        file left out.old out.new result }
{
    let mut source = file;
    run_stream(alloc, &mut source, out, errors, options)
}

// The file that has a name, if there is a name.
fn open_file_if_named<F: Files>(
    files: &F,
    name: Option<&str>,
) -> Option<Result<F::File, DeviceError>>
    ensures { OpensNamed (F.opens files.now) name.entry result }
{
    match name {
        None => None,
        Some(name) => Some(files.open(name)),
    }
}

// Checks the records of a file against the trace of another, where all were opened, over the memory that a third one
// gives if it is there.
fn check_opened_files<S: Source + Drop, K: Sink>(
    alloc: Global,
    options: &CheckOptions,
    opening: Option<Result<S, DeviceError>>,
    trace: Result<S, DeviceError>,
    records: Result<S, DeviceError>,
    out: &mut K,
) -> Result<Done, RunError>
    ensures { OnFiles (devices S.remaining S.failures K.contents K.failures) options.now opening
        trace records out.old out.new result }
{
    match (trace, records) {
        (Ok(trace), Ok(records)) => {
            check_over_optional_opening(alloc, options, opening, trace, records, out)
        }
        _ => Err(RunError::Read),
    }
}

// The same where the other two were opened.
fn check_over_optional_opening<S: Source + Drop, K: Sink>(
    alloc: Global,
    options: &CheckOptions,
    opening: Option<Result<S, DeviceError>>,
    trace: S,
    records: S,
    out: &mut K,
) -> Result<Done, RunError>
    ensures { OnOpening (devices S.remaining S.failures K.contents K.failures) options.now opening
        trace records out.old out.new result }
{
    match opening {
        None => {
            let zeros = Memory::new(alloc);
            check_over_memory(alloc, options, &zeros, trace, records, out)
        }
        Some(Ok(opening)) => check_over_opening(alloc, options, opening, trace, records, out),
        Some(Err(DeviceError)) => Err(RunError::Read),
    }
}

// Reads an opening, and then checks over its memory.
fn check_over_opening<S: Source + Drop, K: Sink>(
    alloc: Global,
    options: &CheckOptions,
    opening: S,
    trace: S,
    records: S,
    out: &mut K,
) -> Result<Done, RunError>
    ensures { ChecksOver (devices S.remaining S.failures K.contents K.failures) options.now
        opening trace records out.old out.new result }
{
    let mut source = opening;
    match opening_of(alloc, &mut source) {
        Ok(memory) => check_over_memory(alloc, options, &memory, trace, records, out),
        Err(error) => Err(error),
    }
}

fn check_over_memory<S: Source + Drop, K: Sink>(
    alloc: Global,
    options: &CheckOptions,
    opening: &Memory,
    trace: S,
    records: S,
    out: &mut K,
) -> Result<Done, RunError>
    ensures { Checks (devices S.remaining S.failures K.contents K.failures) (flat opening.now)
        options.now trace records out.old out.new result }
{
    let mut first = trace;
    let mut second = records;
    let layout = layout_of(options.json);
    check_history(
        alloc,
        &mut first,
        &mut second,
        out,
        opening,
        options.complete,
        layout,
    )
}
