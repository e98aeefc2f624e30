//! The words of a command line, and the job that they ask for.

ghost use Rattle.std.specs.Prelude.{◌≡◌, ◌⊎◌, codes, map, IfOk, IfErr, List};
ghost use Rattle.clap.specs.Words.{Row, Text, found_of, kind_of, rows_of};
ghost use Rattle.command_line.specs.Job.{AreTaken, AskForConflict, GivesJob, IsAskedBy, IsFaulty};
ghost use Rattle.command_line.specs.Job.{IsRefusedFor, conflict_of, conflict_text, words_number};

use crate::app::program_command;
use crate::options::{
    Asked, argument_path, argument_word, asked_trace_run, check_options, cores_in_vain,
    counts_in_vain, ends_options, json_in_vain, litmus_options, progress_in_vain, rows_in_vain,
    stream_in_vain, stream_of,
};
use clap::error::ErrorKind;
use clap::{ArgMatches, Error};
use run_options::{CheckOptions, EndsOptions, LitmusOptions, StreamOptions, TraceOptions};
use std::alloc::Global;

/// What the words ask for.
#[derive(Clone, Copy, Debug)]
pub enum Job<'a> {
    /// To run the litmus test of the file that has this path.
    Litmus(LitmusOptions, &'a str),
    /// To list the ends of the litmus test of the file that has this path.
    Ends(EndsOptions, &'a str),
    /// To run the trace of the file that has this path.
    Trace(TraceOptions, &'a str),
    /// To run the trace of the file that has this path, and to read it as the run goes. Its schedule is round, fair or
    /// not, or seed.
    Stream(StreamOptions, &'a str),
    /// To check the records of the file at the last path against the trace of the file before it, over the opening of
    /// the first file, if one is named.
    Check(CheckOptions, Option<&'a str>, &'a str, &'a str),
}

/// Why words are no job.
#[derive(Debug, Drop)]
pub enum WordsError {
    /// The command line doesn't take the words, or they ask for help, or for what can't be had together: a fair
    /// schedule that is seed, counts of a run by threads or next to records, rows of counts without counts, JSON next
    /// to records, a stream by threads or with counts, or cores, no words or lines of progress of no stream. This is
    /// the text to show, in whole lines.
    Refused(String),
    /// Allocation failed.
    NoMemory,
}

impl WordsError {
    /// Its number: 1 refused, 2 no memory.
    pub fn number(&self) -> u8
        ensures { result ≡ words_number self.now }
    {
        match self {
            WordsError::Refused(_) => 1,
            WordsError::NoMemory => 2,
        }
    }
}

/// The error with the text that clap shows.
fn error_of_clap_refusal(alloc: Global, error: &Error) -> WordsError
    ensures { (words : List Text) → IsFaulty words (kind_of error.now) → IsRefusedFor words result }
{
    match format!(in alloc; "{error}") {
        Ok(text) => WordsError::Refused(text),
        Err(_) => WordsError::NoMemory,
    }
}

/// What can't be had together.
#[derive(Clone, Copy, Debug)]
enum Conflict {
    /// A fair run by a seed.
    Fair,
    /// Counts of a run by threads, or next to records.
    Counts,
    /// Rows of counts without counts.
    Every,
    /// JSON next to records.
    Json,
    /// A trace that is read as the run goes by threads, or with counts.
    Stream,
    /// A number of cores, or no words, of a trace that is read before it runs.
    Cores,
    /// Lines that tell how far a run is, of such a trace.
    Progress,
}

/// What is said of it.
fn conflict_text(why: Conflict) -> &'static str
    ensures { result.now ≡ conflict_text why }
{
    match why {
        Conflict::Fair => {
            "error: '--fair' needs '--schedule round' or '--schedule threads'\n\nFor more information, try '--help'.\n"
        }
        Conflict::Counts => {
            "error: '--counts' needs '--schedule round' or '--schedule seed', and no '--records'\n\n\
            For more information, try '--help'.\n"
        }
        Conflict::Every => {
            "error: '--every' needs '--counts'\n\nFor more information, try '--help'.\n"
        }
        Conflict::Json => {
            "error: '--json' cannot be used with '--records'\n\nFor more information, try '--help'.\n"
        }
        Conflict::Stream => {
            "error: '--stream' needs '--schedule round' or '--schedule seed', and no '--counts'\n\n\
            For more information, try '--help'.\n"
        }
        Conflict::Cores => {
            "error: '--cores' and '--no-words' need '--stream'\n\nFor more information, try '--help'.\n"
        }
        Conflict::Progress => {
            "error: '--progress' needs '--stream'\n\nFor more information, try '--help'.\n"
        }
    }
}

/// The refusal of it.
fn error_of_conflict(alloc: Global, why: Conflict) -> WordsError
    ensures { (words : List Text) (found : Text × List Row) → AreTaken words found →
        AskForConflict found.0 found.1 why → IsRefusedFor words result }
{
    let said = conflict_text(why);
    match format!(in alloc; "{said}") {
        Ok(text) => WordsError::Refused(text),
        Err(_) => WordsError::NoMemory,
    }
}

/// The first of what a run of a trace can't have together, if the words ask for that.
fn conflict_of(asked: &Asked) -> Option<Conflict>
    ensures { result ≡ conflict_of asked.now }
{
    if counts_in_vain(&asked.trace) {
        return Some(Conflict::Counts);
    }
    if rows_in_vain(&asked.trace) {
        return Some(Conflict::Every);
    }
    if json_in_vain(&asked.trace) {
        return Some(Conflict::Json);
    }
    if stream_in_vain(asked) {
        return Some(Conflict::Stream);
    }
    if cores_in_vain(asked) {
        return Some(Conflict::Cores);
    }
    if progress_in_vain(asked) {
        return Some(Conflict::Progress);
    }
    None
}

/// The run of a trace, or what it asks for that can't be had together.
fn trace_job<'a>(matches: &ArgMatches<'a>) -> Result<Job<'a>, Conflict>
    ensures job { IfOk result (GivesJob (codes "trace") (rows_of (found_of matches.now))) }
    ensures conflict { IfErr result (AskForConflict (codes "trace") (rows_of (found_of matches.now))) }
{
    let asked = asked_trace_run(matches).ok_or(Conflict::Fair)?;
    if let Some(why) = conflict_of(&asked) {
        return Err(why);
    }
    let file = argument_word(matches, "FILE");
    if asked.stream {
        return Ok(Job::Stream(stream_of(&asked), file));
    }
    Ok(Job::Trace(asked.trace, file))
}

/// The job of a command that the program has, or what it asks for that can't be had together.
fn job_of_command<'a>(name: &str, matches: &ArgMatches<'a>) -> Result<Job<'a>, Conflict>
    requires { (name.now ≡ codes "litmus") ⊎ (name.now ≡ codes "ends") ⊎ (name.now ≡ codes "trace")
        ⊎ (name.now ≡ codes "check") }
    ensures job { IfOk result (GivesJob name.now (rows_of (found_of matches.now))) }
    ensures conflict { IfErr result (AskForConflict name.now (rows_of (found_of matches.now))) }
{
    match name {
        "litmus" => {
            let options = litmus_options(matches).ok_or(Conflict::Fair)?;
            Ok(Job::Litmus(options, argument_word(matches, "FILE")))
        }
        "ends" => Ok(Job::Ends(ends_options(matches), argument_word(matches, "FILE"))),
        "trace" => trace_job(matches),
        _ => Ok(Job::Check(
            check_options(matches),
            argument_path(matches, "opening"),
            argument_word(matches, "TRACE"),
            argument_word(matches, "RECORDS"),
        )),
    }
}

/// The command that the words name, with its options and its files. The first word is the program's own name.
pub fn read_words<'a>(alloc: Global, words: &'a [&'a str]) -> Result<Job<'a>, WordsError>
    ensures job { IfOk result (IsAskedBy (map (λ w. w.now) words.entry.now)) }
    ensures refused { IfErr result (IsRefusedFor (map (λ w. w.now) words.entry.now)) }
{
    let Ok(command) = program_command(alloc) else {
        return Err(WordsError::NoMemory);
    };
    let matches = match command.try_get_matches_from(words) {
        Ok(matches) => matches,
        Err(error) if error.kind() == ErrorKind::OutOfMemory => return Err(WordsError::NoMemory),
        Err(error) => return Err(error_of_clap_refusal(alloc, &error)),
    };
    let Some((name, inner)) = matches.subcommand() else {
        unreachable!()
    };
    match job_of_command(name, inner) {
        Ok(job) => Ok(job),
        Err(why) => Err(error_of_conflict(alloc, why)),
    }
}
