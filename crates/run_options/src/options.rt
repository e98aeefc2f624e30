//! What the options of a run say. A number without a range here is any of 64 bits; a machine's configuration refuses
//! what no machine can have, such as no banks.

/// The order in which a run takes its events.
#[derive(Clone, Copy, Debug, PartialEq, Eq)]
pub enum Schedule {
    /// In rounds: each core in turn, and then each message in flight.
    Round,
    /// In fair rounds: a message that a bank makes a place for is delivered once more at once.
    FairRound,
    /// One event a turn, drawn by a generator that a seed opens.
    Seed,
    /// By threads, on a machine that they share: each worker gives each of its seats a turn, one after the other.
    Threads,
    /// By threads with fair turns of banks: a bank makes room only after a turn of its own that made no progress.
    FairThreads,
}

/// How the machine is built.
#[derive(Clone, Copy, Debug, PartialEq, Eq)]
pub struct MachineOptions {
    /// How many ticks a lease extends past the times that it covers. A machine takes 1 to 4294967296.
    pub lease: u64,
    /// The time of every core and bank before the first event, in ticks.
    pub time: u64,
    /// How many banks there are. A machine takes 1 to 8.
    pub banks: u64,
    /// How many sets a private cache has. A machine takes 1 to 1024.
    pub sets: u64,
    /// How many lines a private set holds. A machine takes 1 to 16.
    pub ways: u64,
    /// How many sets a bank has. A machine takes 1 to 1024.
    pub bank_sets: u64,
    /// How many lines a bank's set holds. A machine takes 1 to 16.
    pub bank_ways: u64,
    /// How many words a line has. A machine takes 1 or 8.
    pub line_words: u64,
    /// How many messages can be in flight. A machine takes 1 to 65536. The schedule threads ignores it: each seat has
    /// places of its own.
    pub messages: u64,
    /// Whether a core that wrote a line stores to it again without a later time.
    pub private_write: bool,
}

impl MachineOptions {
    /// The machine that is built if no option says otherwise.
    pub const DEFAULT: MachineOptions = MachineOptions {
        lease: 10,
        time: 0,
        banks: 1,
        sets: 64,
        ways: 4,
        bank_sets: 256,
        bank_ways: 8,
        line_words: 1,
        messages: 4096,
        private_write: false,
    };
}

/// How one run goes, on which machine.
#[derive(Clone, Copy, Debug, PartialEq, Eq)]
pub struct RunOptions {
    /// The order of events.
    pub schedule: Schedule,
    /// What opens the generator of schedule seed, in the first of several runs: run i, counted from 0, has this number
    /// plus i, modulo 2^64. The other schedules draw nothing.
    pub seed: u64,
    /// How many threads there are, 1 to 16. By schedule seed they share the runs of a litmus test, and a trace uses
    /// one. By schedule threads they drive the seats of each run, one run after the other. Rounds, fair or not, always
    /// use one thread.
    pub workers: u64,
    /// How many rounds a run has at most, or turns by schedule seed, or turns of each seat by schedule threads: 1 to
    /// 4294967295.
    pub limit: u64,
    pub machine: MachineOptions,
}

impl RunOptions {
    /// A run if no option says otherwise.
    pub const DEFAULT: RunOptions = RunOptions {
        schedule: Schedule::Round,
        seed: 0,
        workers: 1,
        limit: 100_000,
        machine: MachineOptions::DEFAULT,
    };
}

/// The runs of a litmus test.
#[derive(Clone, Copy, Debug, PartialEq, Eq)]
pub struct LitmusOptions {
    /// How often the test is run, 1 to 1000000.
    pub runs: u64,
    /// Whether the report is a JSON object in place of lines.
    pub json: bool,
    pub run: RunOptions,
}

impl LitmusOptions {
    /// The runs of a litmus test if no option says otherwise.
    pub const DEFAULT: LitmusOptions = LitmusOptions {
        runs: 1,
        json: false,
        run: RunOptions::DEFAULT,
    };
}

/// The list of a litmus test's ends.
#[derive(Clone, Copy, Debug, PartialEq, Eq)]
pub struct EndsOptions {
    /// How many states may be kept at once.
    pub most_states: u64,
    /// Whether an order of the threads' memory operations that leads to it stands behind each end.
    pub orders: bool,
    /// Whether the list is a JSON object in place of lines.
    pub json: bool,
}

impl EndsOptions {
    /// The list of a litmus test's ends if no option says otherwise.
    pub const DEFAULT: EndsOptions = EndsOptions {
        most_states: 4_194_304,
        orders: false,
        json: false,
    };
}

/// The run of a trace.
#[derive(Clone, Copy, Debug, PartialEq, Eq)]
pub struct TraceOptions {
    /// Whether the records are written in place of the report.
    pub records: bool,
    /// Whether what the run did, in numbers, stands behind the report; of no effect by threads, and where the records
    /// are written.
    pub counts: bool,
    /// With counts: after how many completed operations each there is one more row of counts, 1 or more. None: there
    /// are no rows. Zero leaves each row out, too. Of no effect without counts.
    pub every: Option<u64>,
    /// Whether the report is a JSON object in place of lines; of no effect where the records are written.
    pub json: bool,
    pub run: RunOptions,
}

impl TraceOptions {
    /// The run of a trace if no option says otherwise.
    pub const DEFAULT: TraceOptions = TraceOptions {
        records: false,
        counts: false,
        every: None,
        json: false,
        run: RunOptions::DEFAULT,
    };
}

/// The run of a trace that is read as the run goes.
#[derive(Clone, Copy, Debug, PartialEq, Eq)]
pub struct StreamOptions {
    /// Whether the records are written in place of the report.
    pub records: bool,
    /// Whether the report ends with the words that the trace names, and their values; of no effect where the records
    /// are written.
    pub words: bool,
    /// Whether the report is a JSON object in place of lines; of no effect where the records are written.
    pub json: bool,
    /// How many cores the machine has, as they aren't counted in the trace before the run. A machine takes 1 to 64.
    pub cores: u64,
    /// After how many million completed operations each a line tells how far the run is, 1 or more. None: there are no
    /// lines. Zero leaves each line out, too.
    pub progress: Option<u64>,
    pub run: RunOptions,
}

impl StreamOptions {
    /// The run of such a trace if no option says otherwise.
    pub const DEFAULT: StreamOptions = StreamOptions {
        records: false,
        words: true,
        json: false,
        cores: 64,
        progress: None,
        run: RunOptions::DEFAULT,
    };
}

/// The check of records against a trace.
#[derive(Clone, Copy, Debug, PartialEq, Eq)]
pub struct CheckOptions {
    /// Whether each operation of the trace needs a record.
    pub complete: bool,
    /// Whether the verdict is a JSON object in place of a line.
    pub json: bool,
}

impl CheckOptions {
    /// The check of records if no option says otherwise.
    pub const DEFAULT: CheckOptions = CheckOptions {
        complete: false,
        json: false,
    };
}
