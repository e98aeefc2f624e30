//! The machine that options ask for, what drives a run of it, and how far it goes.
ghost use Rattle.std.specs.Prelude.{◌≡◌, ◌≢◌, ◌<◌, ◌≤◌, false, true, IfSome, None};
ghost use Rattle.machine_table.specs.SetUp.{is_good};
ghost use Rattle.run_options.specs.declared.options.Schedule.TheVariants.{FairRound, Round};
ghost use Rattle.worker_driver.specs.SetUp.{config_of, driver_of, has_small_parts, limit_of, workers_by};

use machine_table::Config;
use run_options::{MachineOptions, RunOptions, Schedule};
use schedules::Policy;

/// The configuration with these numbers, if no value is out of its range.
pub fn config_of(options: &MachineOptions, cores: u32) -> Option<Config>
    ensures good { IfSome result (λ config.
        (config ≡ config_of options.now cores) × (is_good config ≡ true)) }
    ensures bad { result ≡ None → is_good (config_of options.now cores) ≡ false }
{
    if !part_counts_fit(options) {
        return None;
    }
    let config = Config {
        cores,
        banks: options.banks as u32,
        sets: options.sets as u32,
        ways: options.ways as u32,
        bank_sets: options.bank_sets as u32,
        bank_ways: options.bank_ways as u32,
        line_words: options.line_words as u32,
        lease: options.lease,
        messages: options.messages as u32,
        opening_time: options.time,
        private_write: options.private_write,
    };
    if config.is_good() { Some(config) } else { None }
}

// Whether no number of a machine's parts is past what any machine has.
fn part_counts_fit(options: &MachineOptions) -> bool
    ensures { result ≡ has_small_parts options.now }
{
    options.banks <= 65_536
        && options.sets <= 65_536
        && options.ways <= 65_536
        && options.bank_sets <= 65_536
        && options.bank_ways <= 65_536
        && options.line_words <= 65_536
        && options.messages <= 65_536
}

/// The most turns of a run: as many as its options allow, and at most 4,294,967,295.
pub fn limit_of(options: &RunOptions) -> u32
    ensures limit { result ≡ limit_of options.now }
    ensures whole { options.now.limit ≤ 4294967295 → result ≡ options.now.limit }
    ensures most { 4294967295 ≤ options.now.limit → result ≡ 4294967295 }
{
    options.limit.min(u64::from(u32::MAX)) as u32
}

/// What drives a run.
#[derive(Clone, Copy)]
pub enum Driver {
    /// This policy.
    ByPolicy(Policy),
    /// Threads; and whether banks have fair turns.
    ByThreads(bool),
}

/// What drives the first run: rounds, fair rounds, the seed of the options, or threads, with fair turns or not.
pub fn driver_of(options: &RunOptions) -> Driver
    ensures { result ≡ driver_of options.now }
{
    match options.schedule {
        Schedule::Round => Driver::ByPolicy(Policy::Rounds),
        Schedule::FairRound => Driver::ByPolicy(Policy::FairRounds),
        Schedule::Seed => Driver::ByPolicy(Policy::Seed(options.seed)),
        Schedule::Threads => Driver::ByThreads(false),
        Schedule::FairThreads => Driver::ByThreads(true),
    }
}

/// How many threads drive the machine of a run by threads, or share the runs by a seed: as many as the options say,
/// from 1 to 16. By rounds, fair or not, it is one.
pub fn workers_of(options: &RunOptions) -> u32
    ensures number { result ≡ workers_by options.now.schedule options.now.workers }
    ensures few { (0 < result) × (result ≤ 16) }
    ensures whole { options.now.schedule ≢ Round → options.now.schedule ≢ FairRound →
        1 ≤ options.now.workers → options.now.workers ≤ 16 → result ≡ options.now.workers }
    ensures most { options.now.schedule ≢ Round → options.now.schedule ≢ FairRound →
        16 ≤ options.now.workers → result ≡ 16 }
    ensures none { options.now.workers ≡ 0 → result ≡ 1 }
    ensures rounds { options.now.schedule ≡ Round → result ≡ 1 }
    ensures fair_rounds { options.now.schedule ≡ FairRound → result ≡ 1 }
{
    match options.schedule {
        Schedule::Round => 1,
        Schedule::FairRound => 1,
        Schedule::Seed => options.workers.min(16).max(1) as u32,
        Schedule::Threads => options.workers.min(16).max(1) as u32,
        Schedule::FairThreads => options.workers.min(16).max(1) as u32,
    }
}
