//! Turns of any schedule from the first one, and their result.
ghost use Rattle.std.specs.Prelude.{◌≡◌, ◌<◌, false, true, None, ℕ};
ghost use Rattle.machine_table.specs.Runs.{after_all};
ghost use Rattle.machine_table.specs.Machine.{open_op};
ghost use Rattle.programs.specs.Acts.{next_in};
ghost use Rattle.schedules.specs.Notes.{Finishes};
ghost use Rattle.schedules.specs.Runs.{Ended, initial_position, plan_of};
ghost use Rattle.machine_theorem.specs.Service.{AreServed};
ghost use Rattle.schedules.specs.GivenSteps.{GivesSteps};

use crate::log::Log;
use crate::run::run_turns;
use crate::schedule::Schedule;
use crate::watcher::Watcher;
use interleaving_core::{Event, History, System};
use programs::End;
use programs::program::Program;
use std::alloc::Global;

/// The result of a run: its end, and the events that the machine was given, in order.
#[derive(Drop)]
pub struct Driven {
    pub end: End,
    pub events: Vec<Event>,
}

// Turns until a run ends, of a schedule that issues and advances cores as their programs say.
pub(crate) fn run_schedule<P: Program, W: Watcher, S: Schedule<P>, K: History>(
    schedule: &mut S,
    system: &mut System<K>,
    programs: &mut [P],
    log: &mut Log<W>,
    limit: u32,
) -> End
    requires gives { GivesSteps P.acts S.rule }
    requires no_progress_yet { log.old.has_progressed ≡ false }
    ensures ended { Finishes W.watches (plan_of P.acts S.rule limit)
        (initial_position P.acts system.old programs.old schedule.old)
        log.old.watcher log.new.watcher system.new programs.new schedule.new result }
    ensures all_done { result ≡ End.AllDone → (core : ℕ) → core < system.old.config.cores →
        (open_op system.new core ≡ None) × (next_in P.acts programs.new core ≡ None) }
    ensures served { AreServed P.acts system.old system.new programs.old programs.new }
{
    let _cores = system.cores();
    system.records_are_legal();
    let end = run_turns(schedule, system, programs, log, limit);
    system.records_are_legal();
    end
}

// The same, with the list of events.
pub(crate) fn drive_schedule<P: Program, S: Schedule<P>>(
    alloc: Global,
    system: &mut System,
    programs: &mut [P],
    schedule: &mut S,
    limit: u32,
) -> Driven
    requires { GivesSteps P.acts S.rule }
    ensures schedule { Ended true (plan_of P.acts S.rule limit)
        (initial_position P.acts system.old programs.old schedule.old)
        result.events.items system.new programs.new result.end }
    ensures machine { system.new ≡ after_all system.old result.events.items }
    ensures all_done { result.end ≡ End.AllDone → (core : ℕ) → core < system.old.config.cores →
        (open_op system.new core ≡ None) × (next_in P.acts programs.new core ≡ None) }
    ensures served { AreServed P.acts system.old system.new programs.old programs.new }
{
    let mut log = Log::new(Vec::new(alloc));
    let end = run_schedule(schedule, system, programs, &mut log, limit);
    Driven {
        end,
        events: log.into_watcher(),
    }
}
