//! What the options of a run say.

ghost use Rattle.std.specs.Prelude.{◌≡◌, IfSome, None, option_map};
ghost use Rattle.clap.specs.Words.{found_of, rows_of};
ghost use Rattle.command_line.specs.Options.{HasPath, HasWord, HasAnyNumber, IsFlag, HasNumber, IsOrder};
ghost use Rattle.command_line.specs.Options.{IsSchedule, MayHaveNumber, TellsAsked, TellsCheck, TellsEnds};
ghost use Rattle.command_line.specs.Options.{TellsLitmus, TellsMachine, TellsRun, TellsTrace, is_shared};
ghost use Rattle.command_line.specs.Options.{cores_in_vain, counts_in_vain, fair_schedule, json_in_vain, rows_in_vain};
ghost use Rattle.command_line.specs.Options.{progress_in_vain, stream_in_vain, stream_of};

use clap::ArgMatches;
use run_options::{
    CheckOptions, EndsOptions, LitmusOptions, MachineOptions, RunOptions, Schedule, StreamOptions,
    TraceOptions,
};

/// What the words ask of the run of a trace.
#[derive(Clone, Copy, Debug)]
pub(crate) struct Asked {
    /// How it goes, and what is written of it.
    pub(crate) trace: TraceOptions,
    /// Whether the trace is read as the run goes.
    pub(crate) stream: bool,
    /// How many cores its machine has then, if the words say it.
    pub(crate) cores: Option<u64>,
    /// Whether its report has no words then.
    pub(crate) no_words: bool,
    /// After how many million completed operations each a line is written then, if the words say it.
    pub(crate) progress: Option<u64>,
}

/// The number from least to most that an option's text writes, if it writes one.
fn number_in_range(matches: &ArgMatches<'_>, name: &str, least: u64, most: u64) -> Option<u64>
    ensures { MayHaveNumber (rows_of (found_of matches.now)) name.now least most result }
{
    let number = matches.get_one::<u64>(name)?;
    if number < least || most < number {
        return None;
    }
    Some(number)
}

/// The number from least to most that an option's text writes, or this one if it writes none.
fn number_or_default(matches: &ArgMatches<'_>, name: &str, least: u64, most: u64, other: u64) -> u64
    ensures { HasNumber (rows_of (found_of matches.now)) name.now least most other result }
{
    number_in_range(matches, name, least, most).unwrap_or(other)
}

/// The number of 64 bits that an option has, or this one if it has none.
fn any_number_or_default(matches: &ArgMatches<'_>, name: &str, other: u64) -> u64
    ensures { HasAnyNumber (rows_of (found_of matches.now)) name.now other result }
{
    number_or_default(matches, name, 0, u64::MAX, other)
}

/// Whether a flag is there.
fn is_flag_set(matches: &ArgMatches<'_>, name: &str) -> bool
    ensures { IsFlag (rows_of (found_of matches.now)) name.now result }
{
    matches.get_one::<bool>(name).unwrap_or(false)
}

/// The word that an argument has, as the path of a file; empty if it has none.
pub(crate) fn argument_word<'a>(matches: &ArgMatches<'a>, name: &str) -> &'a str
    ensures { HasWord (rows_of (found_of matches.now)) name.now result.now }
{
    matches.get_str(name).unwrap_or("")
}

/// The path that an option has, if the words have the option.
pub(crate) fn argument_path<'a>(matches: &ArgMatches<'a>, name: &str) -> Option<&'a str>
    ensures { HasPath (rows_of (found_of matches.now)) name.now
        (option_map (λ path. path.now) result) }
{
    matches.get_str(name)
}

/// The schedule that an option's word names.
fn named_schedule(matches: &ArgMatches<'_>, name: &str) -> Schedule
    ensures { IsSchedule (rows_of (found_of matches.now)) name.now result }
{
    match argument_word(matches, name) {
        "seed" => Schedule::Seed,
        "threads" => Schedule::Threads,
        _ => Schedule::Round,
    }
}

/// The schedule, made fair if that is asked; none if it can't be.
fn fair_schedule(fair: bool, schedule: Schedule) -> Option<Schedule>
    ensures { result ≡ fair_schedule fair schedule }
{
    if !fair {
        return Some(schedule);
    }
    match schedule {
        Schedule::Round | Schedule::FairRound => Some(Schedule::FairRound),
        Schedule::Threads | Schedule::FairThreads => Some(Schedule::FairThreads),
        Schedule::Seed => None,
    }
}

/// The order of events that the words ask for; none if it can't be fair and they ask for that.
fn asked_schedule(matches: &ArgMatches<'_>) -> Option<Schedule>
    ensures { IsOrder (rows_of (found_of matches.now)) result }
{
    fair_schedule(
        is_flag_set(matches, "fair"),
        named_schedule(matches, "schedule"),
    )
}

/// The machine that the words ask for.
fn asked_machine_options(matches: &ArgMatches<'_>) -> MachineOptions
    ensures { TellsMachine (rows_of (found_of matches.now)) result }
{
    let default = MachineOptions::DEFAULT;
    MachineOptions {
        lease: any_number_or_default(matches, "lease", default.lease),
        time: any_number_or_default(matches, "time", default.time),
        banks: any_number_or_default(matches, "banks", default.banks),
        sets: any_number_or_default(matches, "sets", default.sets),
        ways: any_number_or_default(matches, "ways", default.ways),
        bank_sets: any_number_or_default(matches, "bank-sets", default.bank_sets),
        bank_ways: any_number_or_default(matches, "bank-ways", default.bank_ways),
        line_words: any_number_or_default(matches, "line-words", default.line_words),
        messages: any_number_or_default(matches, "messages", default.messages),
        private_write: is_flag_set(matches, "private-write"),
    }
}

/// The run that the words ask for; none if it can't be fair and they ask for that.
fn asked_run_options(matches: &ArgMatches<'_>) -> Option<RunOptions>
    ensures run { IfSome result (TellsRun (rows_of (found_of matches.now))) }
    ensures unfair { result ≡ None → IsOrder (rows_of (found_of matches.now)) None }
{
    let default = RunOptions::DEFAULT;
    let schedule = asked_schedule(matches)?;
    Some(RunOptions {
        schedule,
        seed: any_number_or_default(matches, "seed", default.seed),
        workers: number_or_default(matches, "workers", 1, 16, default.workers),
        limit: number_or_default(matches, "limit", 1, 4294967295, default.limit),
        machine: asked_machine_options(matches),
    })
}

/// The runs of a litmus test that the words ask for; none as for one run.
pub(crate) fn litmus_options(matches: &ArgMatches<'_>) -> Option<LitmusOptions>
    ensures litmus { IfSome result (TellsLitmus (rows_of (found_of matches.now))) }
    ensures unfair { result ≡ None → IsOrder (rows_of (found_of matches.now)) None }
{
    let run = asked_run_options(matches)?;
    Some(LitmusOptions {
        runs: number_or_default(matches, "runs", 1, 1000000, LitmusOptions::DEFAULT.runs),
        json: is_flag_set(matches, "json"),
        run,
    })
}

/// The list of ends that the words ask for.
pub(crate) fn ends_options(matches: &ArgMatches<'_>) -> EndsOptions
    ensures { TellsEnds (rows_of (found_of matches.now)) result }
{
    let default = EndsOptions::DEFAULT.most_states;
    EndsOptions {
        most_states: number_or_default(matches, "states", 1, 4294967295, default),
        orders: is_flag_set(matches, "orders"),
        json: is_flag_set(matches, "json"),
    }
}

/// The run of a trace that the words ask for; none as for any run.
fn trace_options(matches: &ArgMatches<'_>) -> Option<TraceOptions>
    ensures trace { IfSome result (TellsTrace (rows_of (found_of matches.now))) }
    ensures unfair { result ≡ None → IsOrder (rows_of (found_of matches.now)) None }
{
    let run = asked_run_options(matches)?;
    Some(TraceOptions {
        records: is_flag_set(matches, "records"),
        counts: is_flag_set(matches, "counts"),
        every: number_in_range(matches, "every", 1, u64::MAX),
        json: is_flag_set(matches, "json"),
        run,
    })
}

/// What the words ask of the run of a trace; none as for any run.
pub(crate) fn asked_trace_run(matches: &ArgMatches<'_>) -> Option<Asked>
    ensures asked { IfSome result (TellsAsked (rows_of (found_of matches.now))) }
    ensures unfair { result ≡ None → IsOrder (rows_of (found_of matches.now)) None }
{
    let trace = trace_options(matches)?;
    Some(Asked {
        trace,
        stream: is_flag_set(matches, "stream"),
        cores: number_in_range(matches, "cores", 1, 64),
        no_words: is_flag_set(matches, "no-words"),
        progress: number_in_range(matches, "progress", 1, 4294967295),
    })
}

/// The options of a trace that is read as the run goes.
pub(crate) fn stream_of(asked: &Asked) -> StreamOptions
    ensures { result ≡ stream_of asked.now }
{
    StreamOptions {
        records: asked.trace.records,
        words: !asked.no_words,
        json: asked.trace.json,
        cores: asked.cores.unwrap_or(StreamOptions::DEFAULT.cores),
        progress: asked.progress,
        run: asked.trace.run,
    }
}

/// The check that the words ask for.
pub(crate) fn check_options(matches: &ArgMatches<'_>) -> CheckOptions
    ensures { TellsCheck (rows_of (found_of matches.now)) result }
{
    CheckOptions {
        complete: is_flag_set(matches, "complete"),
        json: is_flag_set(matches, "json"),
    }
}

/// Whether threads drive a run of this schedule.
fn is_shared(schedule: Schedule) -> bool
    ensures { result ≡ is_shared schedule }
{
    matches!(schedule, Schedule::Threads | Schedule::FairThreads)
}

/// Whether counts are asked for in vain: of a run by threads, or next to records.
pub(crate) fn counts_in_vain(options: &TraceOptions) -> bool
    ensures { result ≡ counts_in_vain options.now }
{
    options.counts && (options.records || is_shared(options.run.schedule))
}

/// Whether rows of counts are asked for in vain: without counts.
pub(crate) fn rows_in_vain(options: &TraceOptions) -> bool
    ensures { result ≡ rows_in_vain options.now }
{
    options.every.is_some() && !options.counts
}

/// Whether JSON is asked for in vain: next to records.
pub(crate) fn json_in_vain(options: &TraceOptions) -> bool
    ensures { result ≡ json_in_vain options.now }
{
    options.json && options.records
}

/// Whether it is asked in vain to read the trace as the run goes: by threads, or next to counts.
pub(crate) fn stream_in_vain(asked: &Asked) -> bool
    ensures { result ≡ stream_in_vain asked.now }
{
    asked.stream && (asked.trace.counts || is_shared(asked.trace.run.schedule))
}

/// Whether a number of cores, or no words, are asked for in vain: of a trace that is read before it runs.
pub(crate) fn cores_in_vain(asked: &Asked) -> bool
    ensures { result ≡ cores_in_vain asked.now }
{
    !asked.stream && (asked.cores.is_some() || asked.no_words)
}

/// Whether lines that tell how far a run is are asked for in vain: of a trace that is read before it runs.
pub(crate) fn progress_in_vain(asked: &Asked) -> bool
    ensures { result ≡ progress_in_vain asked.now }
{
    !asked.stream && asked.progress.is_some()
}
