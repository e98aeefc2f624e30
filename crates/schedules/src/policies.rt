//! A run by a policy, without its list of events: watched or not, to its end or in pieces.
ghost use Rattle.std.specs.Prelude.{◌≡◌, ◌<◌, false, List, None, length, ℕ};
ghost use Rattle.machine_table.specs.Runs.{after_all};
ghost use Rattle.machine_table.specs.declared.event.Event.{Event};
ghost use Rattle.machine_table.specs.Machine.{open_op};
ghost use Rattle.programs.specs.Acts.{next_in};
ghost use Rattle.schedules.specs.Paces.{GoesOnIn, gone};
ghost use Rattle.schedules.specs.Policies.{EndedBy, EndsBy};
ghost use Rattle.schedules.specs.Watches.{AreSeen, watched};
ghost use Rattle.machine_theorem.specs.Service.{AreServed};

use crate::driven::run_schedule;
use crate::log::Log;
use crate::pace::Pace;
use crate::policy::Policy;
use crate::round::Rounds;
use crate::seeds::restore_order;
use crate::watcher::Watcher;
use interleaving_core::{History, System};
use programs::End;
use programs::program::Program;
use std::alloc::Global;

/// Drives the machine as `drive_round`, `drive_fair_round` and `drive_seed` do, and gives the end alone: it keeps no
/// list of events, and allocates nothing for one. So the end is NoMemory only before an event that allocates, an issue
/// or the first store of a line in its DRAM, or where the schedule lists messages or orders lines. Afterwards the
/// machine keeps its lines in rising order exactly if it did before.
pub fn run_to_end<P: Program, K: History>(
    alloc: Global,
    system: &mut System<K>,
    programs: &mut [P],
    policy: Policy,
    limit: u32,
) -> End
    requires one_each { length programs.old ≡ system.old.config.cores }
    ensures ended { (events : List Event)
        × EndedBy P.acts policy limit system.old programs.old events system.new programs.new result
        × (system.new ≡ after_all system.old events) }
    ensures all_done { result ≡ End.AllDone → (core : ℕ) → core < system.old.config.cores →
        (open_op system.new core ≡ None) × (next_in P.acts programs.new core ≡ None) }
    ensures served { AreServed P.acts system.old system.new programs.old programs.new }
{
    run_watched(alloc, system, programs, (), policy, limit).0
}

/// Drives the machine as `run_to_end` does, and shows the watcher each answered event, with the machine after it. An
/// event for which the watcher can't make room isn't made: the end is NoMemory then. The result is the end and the
/// watcher.
pub fn run_watched<P: Program, W: Watcher, K: History>(
    alloc: Global,
    system: &mut System<K>,
    programs: &mut [P],
    watcher: W,
    policy: Policy,
    limit: u32,
) -> (End, W)
    requires one_each { length programs.old ≡ system.old.config.cores }
    ensures ended { (events : List Event)
        × EndsBy W.watches.asks P.acts policy limit system.old programs.old events system.new
        programs.new result.0
        × (system.new ≡ after_all system.old events)
        × (W.watches.seen result.1 ≡
        watched W.watches (W.watches.seen watcher) system.old events) }
    ensures all_done { result.0 ≡ End.AllDone → (core : ℕ) → core < system.old.config.cores →
        (open_op system.new core ≡ None) × (next_in P.acts programs.new core ≡ None) }
    ensures served { AreServed P.acts system.old system.new programs.old programs.new }
{
    let mut pace = Pace::new(policy);
    run_on(alloc, system, programs, watcher, &mut pace, limit)
}

/// Drives the machine as `run_watched` does, from where earlier pieces of the run ended, for at most `limit` more
/// turns. The pace says where that is, and then where this piece ended: it goes on by each turn that the piece begins,
/// even by one that a refused allocation cuts short. A piece that used its turns and the next one are one run
/// (`laws::runs_go_on`). Lists of steps may be filled between them, and `laws::pieces_go_by_turns` says how many turns
/// a piece began.
pub fn run_on<P: Program, W: Watcher, K: History>(
    alloc: Global,
    system: &mut System<K>,
    programs: &mut [P],
    watcher: W,
    pace: &mut Pace,
    limit: u32,
) -> (End, W)
    requires one_each { length programs.old ≡ system.old.config.cores }
    ensures ended { (events : List Event) × (turns : ℕ)
        × GoesOnIn W.watches.asks P.acts pace.old turns limit system.old programs.old events
        system.new programs.new result.0
        × (pace.new ≡ gone turns pace.old)
        × (system.new ≡ after_all system.old events)
        × (W.watches.seen result.1 ≡
        watched W.watches (W.watches.seen watcher) system.old events) }
    ensures all_done { result.0 ≡ End.AllDone → (core : ℕ) → core < system.old.config.cores →
        (open_op system.new core ≡ None) × (next_in P.acts programs.new core ≡ None) }
    ensures served { AreServed P.acts system.old system.new programs.old programs.new }
{
    let mut log = Log::new(watcher);
    let end = run_by_pace(alloc, system, programs, &mut log, pace, limit);
    (end, log.into_watcher())
}

// Turns of the policy's schedule until a run ends.
fn run_by_pace<P: Program, W: Watcher, K: History>(
    alloc: Global,
    system: &mut System<K>,
    programs: &mut [P],
    log: &mut Log<W>,
    pace: &mut Pace,
    limit: u32,
) -> End
    requires { log.old.has_progressed ≡ false }
    ensures ended { (events : List Event) × (turns : ℕ)
        × GoesOnIn W.watches.asks P.acts pace.old turns limit system.old programs.old events
        system.new programs.new result
        × (pace.new ≡ gone turns pace.old)
        × AreSeen W.watches (W.watches.seen log.old.watcher) system.old events system.new
        log.new.watcher }
    ensures all_done { result ≡ End.AllDone → (core : ℕ) → core < system.old.config.cores →
        (open_op system.new core ≡ None) × (next_in P.acts programs.new core ≡ None) }
    ensures served { AreServed P.acts system.old system.new programs.old programs.new }
{
    match pace.policy {
        Policy::Rounds => {
            let mut schedule = Rounds::new(alloc, false, system.cores());
            run_schedule(&mut schedule, system, programs, log, limit)
        }
        Policy::FairRounds => {
            let mut schedule = Rounds::new(alloc, true, system.cores());
            run_schedule(&mut schedule, system, programs, log, limit)
        }
        Policy::Seed(_) => {
            let had_order = system.keeps_order();
            let end = run_schedule(&mut pace.seeds, system, programs, log, limit);
            restore_order(system, had_order);
            end
        }
    }
}
