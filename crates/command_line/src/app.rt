//! The command line as `clap` reads it: the command, its options with defaults and ranges, and what help says of them.

ghost use Rattle.std.specs.Prelude.{◌≡◌, IfOk, codes, false, true};
ghost use Rattle.clap.specs.Words.{App, Rule, app_of, new_app, with_rule, with_subcommand};
ghost use Rattle.clap.specs.declared.builder.command.Command.TheViews.{out-Command as fields_of};
ghost use Rattle.command_line.specs.Additions.{Adds, IsApp, IsArg};
ghost use Rattle.command_line.specs.App.{NameSchedules, NamesSchedules, any_number, bare_rule, check_app};
ghost use Rattle.command_line.specs.App.{count_rules, ends_app, from_one};
ghost use Rattle.command_line.specs.App.{file_rule, flag_rule, litmus_app, machine_rules, number_rule, path_rule};
ghost use Rattle.command_line.specs.App.{run_rules, stream_rules};
ghost use Rattle.command_line.specs.App.{tardis_app, trace_app, wanting, with_rules, with_run_and_file};

use clap::builder::ValueParser;
use clap::{Arg, ArgAction, Command, value_parser};
use std::alloc::{AllocError, Global};

static SCHEDULES: [&str; 3] = ["round", "seed", "threads"];

// What help says of each option.
const SCHEDULE: &str =
    "The order of events: round gives each core its turn, then each message in flight; seed draws one event a turn; \
    threads has workers drive the cores and banks of a machine that they share, so runs differ";

const SEED: &str =
    "What opens the generator of schedule seed, any number of 64 bits; run i of several, counted from 0, \
    has this number plus i";

const LIMIT: &str =
    "How many rounds a run has at most, or turns by schedule seed, or turns of each core and bank by \
    schedule threads, 1 to 4294967295";

const RUNS: &str = "How often the test is run, 1 to 1000000";

const WORKERS: &str =
    "How many threads there are, 1 to 16: they share the runs of a litmus test by schedule seed, and \
    drive each run by schedule threads; else there is one";

const FAIR: &str =
    "By schedule round, delivers a message once more at once where a bank has made a place for it, \
    so that no younger one takes the place; by schedule threads, lets a bank make a place only after a \
    turn in which it moved no message";

const PRIVATE_WRITE: &str = "Lets a core that wrote a line store to it again without a later time";

const LEASE: &str = "How many ticks a lease goes past the times that it covers, 1 to 4294967296";

const TIME: &str =
    "The time of every core and bank before the first event, in ticks, any number of 64 bits";

const BANKS: &str = "How many banks the last-level cache has, 1 to 8";

const SETS: &str = "How many sets a private cache has, 1 to 1024";

const WAYS: &str = "How many lines a set of a private cache holds, 1 to 16";

const BANK_SETS: &str = "How many sets a bank has, 1 to 1024";

const BANK_WAYS: &str = "How many lines a set of a bank holds, 1 to 16";

const LINE_WORDS: &str = "How many words a line has, 1 or 8";

const MESSAGES: &str =
    "How many messages can be in flight, 1 to 65536; of no effect by schedule threads";

const RECORDS: &str = "Writes the records of the completed operations in place of the report";

const COUNTS: &str =
    "Puts what the run did, in numbers, behind the report; not by schedule threads, nor with --records";

const EVERY: &str =
    "Puts a row of the numbers so far before them each time that so many more operations are completed, \
    1 to 18446744073709551615; only with --counts";

const JSON: &str = "Writes a JSON object in place of lines";

const TRACE_JSON: &str = "Writes a JSON object in place of lines; not with --records";

const STREAM: &str =
    "Reads the trace as the run goes, without a limit of lines; not by schedule threads, nor with --counts";

const CORES: &str =
    "How many cores the machine of a stream has, 1 to 64; by default 64; schedule seed draws among these";

const NO_WORDS: &str = "Leaves the words out of a stream's report";

const PROGRESS: &str =
    "Writes a line on standard error each time that so many million more operations are completed, \
    1 to 4294967295; only with --stream";

const COMPLETE: &str = "Asks for a record of each operation of the trace";

const OPENING: &str = "The file with the values that words open with; all others open with 0";

const STATES: &str = "How many states may be kept at once, 1 to 4294967295";

const ORDERS: &str = "Puts an order of the memory operations that leads to it behind each end";

const LITMUS_FILE: &str = "The file with the text of the litmus test";

const TRACE_FILE: &str = "The file with the text of the trace";

const RECORDS_FILE: &str = "The file with the text of the records";

/// An option with a value, without a default.
fn option_without_default<'a>(
    alloc: Global,
    name: &'a str,
    parser: ValueParser<'a>,
    help: &'a str,
) -> Arg<'a>
    ensures { IsArg result (bare_rule name.entry.now parser.entry) }
{
    Arg::new(alloc, name)
        .long(name)
        .action(ArgAction::Set)
        .value_parser(parser)
        .help(help)
}

/// An option with a value, and its default.
fn option_with_default<'a>(
    alloc: Global,
    name: &'a str,
    default: &'a str,
    parser: ValueParser<'a>,
    help: &'a str,
) -> Arg<'a>
    ensures { IsArg result (number_rule name.entry.now default.entry.now parser.entry) }
{
    option_without_default(alloc, name, parser, help).default_value(default)
}

/// The words `round`, `seed` and `threads`.
fn schedule_parser<'a>() -> ValueParser<'a>
    ensures { NamesSchedules result }
{
    ValueParser::from(SCHEDULES.as_slice())
}

/// An option without a value.
fn flag_argument<'a>(alloc: Global, name: &'a str, help: &'a str) -> Arg<'a>
    ensures { IsArg result (flag_rule name.entry.now) }
{
    Arg::new(alloc, name)
        .long(name)
        .action(ArgAction::SetTrue)
        .help(help)
}

/// An option whose value is the path of a file.
fn path_option<'a>(alloc: Global, name: &'a str, help: &'a str) -> Arg<'a>
    ensures { IsArg result (path_rule name.entry.now) }
{
    Arg::new(alloc, name)
        .long(name)
        .action(ArgAction::Set)
        .value_name("FILE")
        .help(help)
}

/// The path of a file, which the words must have.
fn file_argument<'a>(alloc: Global, name: &'a str, help: &'a str) -> Arg<'a>
    ensures { IsArg result (file_rule name.entry.now) }
{
    Arg::new(alloc, name).required(true).help(help)
}

/// A command with one more argument, if there is memory for both.
fn with_argument<'a>(
    command: Result<Command<'a>, AllocError>,
    arg: Arg<'a>,
) -> Result<Command<'a>, AllocError>
    ensures { (rule : Rule) → IsArg arg.entry rule →
        Adds command.entry (λ app. with_rule app rule) result }
{
    let command = command?;
    command.arg(arg)
}

/// A command with one more option, with a number of 64 bits.
fn with_number_option<'a>(
    command: Result<Command<'a>, AllocError>,
    alloc: Global,
    name: &'a str,
    default: &'a str,
    help: &'a str,
) -> Result<Command<'a>, AllocError>
    ensures { Adds command.entry (λ app. with_rule app
        (number_rule name.entry.now default.entry.now any_number)) result }
{
    let parser = value_parser!(u64);
    with_argument(
        command,
        option_with_default(alloc, name, default, parser, help),
    )
}

/// A command with the options that say in which order and how far a run goes.
fn with_run_options<'a>(
    command: Result<Command<'a>, AllocError>,
    alloc: Global,
) -> Result<Command<'a>, AllocError>
    ensures { (p : _) × NamesSchedules p ×
        Adds command.entry (λ app. with_rules app (run_rules p)) result }
{
    let names = schedule_parser();
    let limit = value_parser!(u64).range(1..4294967296);
    let workers = value_parser!(u64).range(1..17);
    let one = with_argument(
        command,
        option_with_default(alloc, "schedule", "round", names, SCHEDULE),
    );
    let two = with_number_option(one, alloc, "seed", "0", SEED);
    let three = with_argument(
        two,
        option_with_default(alloc, "limit", "100000", limit, LIMIT),
    );
    let four = with_argument(
        three,
        option_with_default(alloc, "workers", "1", workers, WORKERS),
    );
    let five = with_argument(four, flag_argument(alloc, "fair", FAIR));
    with_argument(five, flag_argument(alloc, "private-write", PRIVATE_WRITE))
}

/// A command with the options that say how the machine is built.
fn with_machine_options<'a>(
    command: Result<Command<'a>, AllocError>,
    alloc: Global,
) -> Result<Command<'a>, AllocError>
    ensures { Adds command.entry (λ app. with_rules app machine_rules) result }
{
    let one = with_number_option(command, alloc, "lease", "10", LEASE);
    let two = with_number_option(one, alloc, "time", "0", TIME);
    let three = with_number_option(two, alloc, "banks", "1", BANKS);
    let four = with_number_option(three, alloc, "sets", "64", SETS);
    let five = with_number_option(four, alloc, "ways", "4", WAYS);
    let six = with_number_option(five, alloc, "bank-sets", "256", BANK_SETS);
    let seven = with_number_option(six, alloc, "bank-ways", "8", BANK_WAYS);
    let eight = with_number_option(seven, alloc, "line-words", "1", LINE_WORDS);
    with_number_option(eight, alloc, "messages", "4096", MESSAGES)
}

/// A command with all the options of a run, and with a file.
fn with_run_arguments<'a>(
    command: Result<Command<'a>, AllocError>,
    alloc: Global,
    help: &'a str,
) -> Result<Command<'a>, AllocError>
    ensures { (p : _) × NamesSchedules p × Adds command.entry (λ app. with_run_and_file app p) result }
{
    let ordered = with_run_options(command, alloc);
    let built = with_machine_options(ordered, alloc);
    with_argument(built, file_argument(alloc, "FILE", help))
}

/// A command that takes nothing yet.
fn command_without_arguments<'a>(
    alloc: Global,
    name: &'a str,
    about: &'a str,
) -> Result<Command<'a>, AllocError>
    ensures { IfOk result (IsApp (new_app name.entry.now)) }
{
    Ok(Command::new(alloc, name).about(about))
}

/// The command `litmus`.
fn litmus_command<'a>(alloc: Global) -> Result<Command<'a>, AllocError>
    ensures { (p : _) × NamesSchedules p × IfOk result (IsApp (litmus_app p)) }
{
    let about = "Runs a litmus test and reports its end states and the verdict on its condition";
    let named = command_without_arguments(alloc, "litmus", about);
    let runs = value_parser!(u64).range(1..1000001);
    let repeated = with_argument(named, option_with_default(alloc, "runs", "1", runs, RUNS));
    let written = with_argument(repeated, flag_argument(alloc, "json", JSON));
    with_run_arguments(written, alloc, LITMUS_FILE)
}

/// The command `ends`.
fn ends_command<'a>(alloc: Global) -> Result<Command<'a>, AllocError>
    ensures { IfOk result (IsApp ends_app) }
{
    let about =
        "Lists every end of a litmus test on a sequential machine, and whether its condition holds there";
    let named = command_without_arguments(alloc, "ends", about);
    let states = value_parser!(u64).range(1..4294967296);
    let bounded = with_argument(
        named,
        option_with_default(alloc, "states", "4194304", states, STATES),
    );
    let ordered = with_argument(bounded, flag_argument(alloc, "orders", ORDERS));
    let written = with_argument(ordered, flag_argument(alloc, "json", JSON));
    with_argument(written, file_argument(alloc, "FILE", LITMUS_FILE))
}

/// A command with the options that say what of a trace's run is written.
fn with_count_options<'a>(
    command: Result<Command<'a>, AllocError>,
    alloc: Global,
) -> Result<Command<'a>, AllocError>
    ensures { Adds command.entry (λ app. with_rules app count_rules) result }
{
    let every = value_parser!(u64).range(1..);
    let one = with_argument(command, flag_argument(alloc, "records", RECORDS));
    let two = with_argument(one, flag_argument(alloc, "counts", COUNTS));
    let three = with_argument(two, option_without_default(alloc, "every", every, EVERY));
    with_argument(three, flag_argument(alloc, "json", TRACE_JSON))
}

/// A command with the options of a trace that is read as the run goes.
fn with_stream_options<'a>(
    command: Result<Command<'a>, AllocError>,
    alloc: Global,
) -> Result<Command<'a>, AllocError>
    ensures { Adds command.entry (λ app. with_rules app stream_rules) result }
{
    let cores = value_parser!(u64).range(1..65);
    let millions = value_parser!(u64).range(1..4294967296);
    let one = with_argument(command, flag_argument(alloc, "stream", STREAM));
    let two = with_argument(one, option_without_default(alloc, "cores", cores, CORES));
    let three = with_argument(two, flag_argument(alloc, "no-words", NO_WORDS));
    with_argument(
        three,
        option_without_default(alloc, "progress", millions, PROGRESS),
    )
}

/// The command `trace`.
fn trace_command<'a>(alloc: Global) -> Result<Command<'a>, AllocError>
    ensures { (p : _) × NamesSchedules p × IfOk result (IsApp (trace_app p)) }
{
    let about = "Runs a trace and reports what came of it, or its records";
    let named = command_without_arguments(alloc, "trace", about);
    let counted = with_count_options(named, alloc);
    let streamed = with_stream_options(counted, alloc);
    with_run_arguments(streamed, alloc, TRACE_FILE)
}

/// The command `check`.
fn check_command<'a>(alloc: Global) -> Result<Command<'a>, AllocError>
    ensures { IfOk result (IsApp check_app) }
{
    let about = "Says whether records are a legal history of a trace";
    let named = command_without_arguments(alloc, "check", about);
    let whole = with_argument(named, flag_argument(alloc, "complete", COMPLETE));
    let opened = with_argument(whole, path_option(alloc, "opening", OPENING));
    let written = with_argument(opened, flag_argument(alloc, "json", JSON));
    let traced = with_argument(written, file_argument(alloc, "TRACE", TRACE_FILE));
    with_argument(traced, file_argument(alloc, "RECORDS", RECORDS_FILE))
}

/// A program with one more command, if there is memory for both.
fn with_command<'a>(
    command: Result<Command<'a>, AllocError>,
    inner: Result<Command<'a>, AllocError>,
) -> Result<Command<'a>, AllocError>
    ensures { (app : App) → IfOk inner.entry (IsApp app) →
        Adds command.entry (λ old. with_subcommand old app.top) result }
{
    let command = command?;
    let inner = inner?;
    command.subcommand(inner)
}

/// The program without its commands, of which it needs one.
fn program_without_commands<'a>(alloc: Global) -> Result<Command<'a>, AllocError>
    ensures { IfOk result (IsApp (wanting (new_app (codes "tardis")))) }
{
    let about = "A simulator of the Tardis coherence protocol that checks what it simulates";
    let named = Command::new(alloc, "tardis").about(about);
    let numbered = named.version("0.4.1");
    Ok(numbered.subcommand_required(true))
}

/// The command line of the program.
pub(crate) fn program_command<'a>(alloc: Global) -> Result<Command<'a>, AllocError>
    ensures app { IfOk result (λ c. (p : _) × NameSchedules p × (app_of c ≡ tardis_app p)) }
    ensures globals { IfOk result (λ c. (fields_of c).has_globals ≡ false) }
    ensures required { IfOk result (λ c. (fields_of c).subcommand_required ≡ true) }
{
    let litmus = litmus_command(alloc);
    let ends = ends_command(alloc);
    let trace = trace_command(alloc);
    let check = check_command(alloc);
    let one = with_command(program_without_commands(alloc), litmus);
    let two = with_command(one, ends);
    let three = with_command(two, trace);
    with_command(three, check)
}
