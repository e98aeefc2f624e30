//! The schedule of rounds, until a run ends.
ghost use Rattle.std.specs.Prelude.{◌≡◌, ◌<◌, false, true, None, length, ℕ};
ghost use Rattle.machine_table.specs.Runs.{after_all};
ghost use Rattle.machine_table.specs.Machine.{open_op};
ghost use Rattle.programs.specs.Acts.{next_in};
ghost use Rattle.schedules.specs.RoundSchedule.{no_round, rounds};
ghost use Rattle.schedules.specs.Runs.{Ended, initial_position, plan_of};
ghost use Rattle.machine_theorem.specs.Service.{AreServed};

use crate::driven::{Driven, drive_schedule};
use crate::round::Rounds;
use interleaving_core::System;
use programs::End;
use programs::program::Program;
use std::alloc::Global;

/// Drives the machine by the schedule of rounds (docs/SCHEDULES.md), with one program for each core, until every
/// program is done, a round made no progress, `limit` rounds were made, times are exhausted or allocation failed. The
/// events are those of the schedule, each by the machine and the programs as they then are, and so is the end, unless
/// it is NoMemory. That comes only before an event, or where the schedule lists the messages in flight, after the last
/// core of a round. The list has the events that the machine was given, and no others. At any end, each core that had
/// no open operation before was issued what its program gave, in order, and the program received what each completed
/// operation did, in order.
pub fn drive_round<P: Program>(
    alloc: Global,
    system: &mut System,
    programs: &mut [P],
    limit: u32,
) -> Driven
    requires one_each { length programs.old ≡ system.old.config.cores }
    ensures schedule { Ended true (plan_of P.acts (rounds P.acts) limit)
        (initial_position P.acts system.old programs.old (no_round false system.old.config.cores))
        result.events.items system.new programs.new result.end }
    ensures machine { system.new ≡ after_all system.old result.events.items }
    ensures all_done { result.end ≡ End.AllDone → (core : ℕ) → core < system.old.config.cores →
        (open_op system.new core ≡ None) × (next_in P.acts programs.new core ≡ None) }
    ensures served { AreServed P.acts system.old system.new programs.old programs.new }
{
    let mut schedule = Rounds::new(alloc, false, system.cores());
    drive_schedule(alloc, system, programs, &mut schedule, limit)
}

/// Drives the machine by fair rounds (docs/SCHEDULES.md), as `drive_round` does by rounds. In these, if the eviction
/// that makes room for a held message is answered Evicted, the message is delivered once more at once. So no younger
/// request takes the place, unless the network is full. A second Held is followed by no eviction.
pub fn drive_fair_round<P: Program>(
    alloc: Global,
    system: &mut System,
    programs: &mut [P],
    limit: u32,
) -> Driven
    requires one_each { length programs.old ≡ system.old.config.cores }
    ensures schedule { Ended true (plan_of P.acts (rounds P.acts) limit)
        (initial_position P.acts system.old programs.old (no_round true system.old.config.cores))
        result.events.items system.new programs.new result.end }
    ensures machine { system.new ≡ after_all system.old result.events.items }
    ensures all_done { result.end ≡ End.AllDone → (core : ℕ) → core < system.old.config.cores →
        (open_op system.new core ≡ None) × (next_in P.acts programs.new core ≡ None) }
    ensures served { AreServed P.acts system.old system.new programs.old programs.new }
{
    let mut schedule = Rounds::new(alloc, true, system.cores());
    drive_schedule(alloc, system, programs, &mut schedule, limit)
}
