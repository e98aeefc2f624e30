//! Options as C has them.
ghost use Rattle.std.specs.Prelude.{◌≡◌};
ghost use Rattle.run_options.specs.declared.options.TheConstants.LitmusOptions.{DEFAULT as litmus_default};
ghost use Rattle.run_options.specs.declared.options.TheConstants.TraceOptions.{DEFAULT as trace_default};
ghost use Rattle.tardis_c.specs.Options.{ends_options, every_of, litmus_options, run_options, trace_options};

use run_options::{EndsOptions, LitmusOptions, MachineOptions, RunOptions, Schedule, TraceOptions};

/// The options of a run, as `tardis.h` has them. A flag is set if its number isn't 0.
#[repr(C)]
#[derive(Clone, Copy)]
pub struct PlainOptions {
    /// How many ticks a lease extends past the times that it covers.
    pub lease: u64,
    /// The time of every core and bank before the first event, in ticks.
    pub time: u64,
    /// How many banks there are.
    pub banks: u64,
    /// How many sets a private cache has.
    pub sets: u64,
    /// How many lines a private set holds.
    pub ways: u64,
    /// How many sets a bank has.
    pub bank_sets: u64,
    /// How many lines a bank's set holds.
    pub bank_ways: u64,
    /// How many words a line has.
    pub line_words: u64,
    /// How many messages can be in flight.
    pub messages: u64,
    /// A flag: a core that wrote a line stores to it again without a later time.
    pub private_write: u64,
    /// A flag: events are drawn by a seed, and not by rounds.
    pub by_seed: u64,
    /// What opens the generator of the first run, if events are drawn.
    pub seed: u64,
    /// How many rounds or turns a run has at most.
    pub limit: u64,
    /// How often a litmus test is run.
    pub runs: u64,
    /// A flag: the records of a trace are written in place of its report.
    pub records: u64,
    /// A flag: rounds are fair. A run by a seed ignores it.
    pub fair: u64,
    /// A flag: a report is a JSON object in place of lines. Records are always lines.
    pub json: u64,
    /// A flag: what a trace's run did, in numbers, stands behind its report; of no effect where records are written.
    pub counts: u64,
    /// After how many completed operations each there is one more row of counts; 0 for none. Of no effect without
    /// counts.
    pub every: u64,
}

/// How the machine is built.
pub(crate) fn machine_options(plain: &PlainOptions) -> MachineOptions
    ensures { result ≡ (run_options plain.now).machine }
{
    MachineOptions {
        lease: plain.lease,
        time: plain.time,
        banks: plain.banks,
        sets: plain.sets,
        ways: plain.ways,
        bank_sets: plain.bank_sets,
        bank_ways: plain.bank_ways,
        line_words: plain.line_words,
        messages: plain.messages,
        private_write: plain.private_write != 0,
    }
}

// In which order the events come.
fn schedule_of_options(plain: &PlainOptions) -> Schedule
    ensures { result ≡ (run_options plain.now).schedule }
{
    if plain.by_seed != 0 {
        return Schedule::Seed;
    }
    if plain.fair != 0 {
        return Schedule::FairRound;
    }
    Schedule::Round
}

// How a run goes.
fn run_options(plain: &PlainOptions) -> RunOptions
    ensures { result ≡ run_options plain.now }
{
    RunOptions {
        schedule: schedule_of_options(plain),
        seed: plain.seed,
        workers: 1,
        limit: plain.limit,
        machine: machine_options(plain),
    }
}

/// How a litmus test is run.
pub(crate) fn litmus_options(plain: &PlainOptions) -> LitmusOptions
    ensures { result ≡ litmus_options plain.now }
{
    LitmusOptions {
        runs: plain.runs,
        json: plain.json != 0,
        run: run_options(plain),
    }
}

/// How the ends of a litmus test are listed.
pub(crate) fn ends_options(states: u64, orders: u32, json: u32) -> EndsOptions
    ensures { result ≡ ends_options states orders json }
{
    EndsOptions {
        most_states: states,
        orders: orders != 0,
        json: json != 0,
    }
}

// After how many operations each there is a row of counts.
fn operations_per_row(plain: &PlainOptions) -> Option<u64>
    ensures { result ≡ every_of plain.now.every }
{
    if plain.every == 0 {
        return None;
    }
    Some(plain.every)
}

/// How a trace is run.
pub(crate) fn trace_options(plain: &PlainOptions) -> TraceOptions
    ensures { result ≡ trace_options plain.now }
{
    TraceOptions {
        records: plain.records != 0,
        counts: plain.counts != 0,
        every: operations_per_row(plain),
        json: plain.json != 0,
        run: run_options(plain),
    }
}

/// The defaults of all options.
#[unsafe(no_mangle)]
pub extern "C" fn tardis_c_defaults(options: &mut PlainOptions)
    ensures litmus { litmus_options options.new ≡ litmus_default }
    ensures trace { trace_options options.new ≡ trace_default }
{
    let litmus = LitmusOptions::DEFAULT;
    let (run, machine) = (litmus.run, litmus.run.machine);
    *options = PlainOptions {
        lease: machine.lease,
        time: machine.time,
        banks: machine.banks,
        sets: machine.sets,
        ways: machine.ways,
        bank_sets: machine.bank_sets,
        bank_ways: machine.bank_ways,
        line_words: machine.line_words,
        messages: machine.messages,
        private_write: 0,
        by_seed: 0,
        seed: run.seed,
        limit: run.limit,
        runs: litmus.runs,
        records: 0,
        fair: 0,
        json: 0,
        counts: 0,
        every: 0,
    };
}
