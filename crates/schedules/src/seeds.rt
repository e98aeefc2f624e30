//! The seeded schedule, until a run ends.
ghost use Rattle.std.specs.Prelude.{◌≡◌, ◌<◌, true, None, length, ℕ};
ghost use Rattle.machine_table.specs.Runs.{after_all};
ghost use Rattle.machine_table.specs.Machine.{open_op};
ghost use Rattle.programs.specs.Acts.{next_in};
ghost use Rattle.schedules.specs.Runs.{Ended, initial_position, plan_of};
ghost use Rattle.schedules.specs.SeedSchedule.{of_seed, seeded};
ghost use Rattle.machine_theorem.specs.Service.{AreServed};

use crate::driven::{Driven, drive_schedule};
use crate::seed::Seeds;
use interleaving_core::{History, System};
use programs::End;
use programs::program::Program;
use std::alloc::Global;

// After a run the machine keeps its lines in rising order exactly if it did before. The memory for that stays.
pub(crate) fn restore_order<K: History>(system: &mut System<K>, had_order: bool)
    ensures { system.new ≡ system.old }
{
    if !had_order {
        system.pause_order();
    }
}

/// Drives the machine by the seeded schedule (docs/SCHEDULES.md), with one program for each core, until every program
/// is done, `limit` turns were made, times are exhausted or allocation failed. A seed is any number of 64 bits; one
/// seed gives one list of events. The events are those of the schedule, each by the machine and the programs as they
/// then are, and so is the end, unless it is NoMemory; it is never Stalled. NoMemory comes only before an event, or
/// where the schedule has drawn an eviction. From the first eviction on the machine keeps its lines in rising order
/// (`System::keep_order`); after the run it does so exactly if it did before. The list has the events that the machine
/// was given, and no others. At any end, each core that had no open operation before was issued what its program gave,
/// in order, and the program received what each completed operation did, in order.
pub fn drive_seed<P: Program>(
    alloc: Global,
    system: &mut System,
    programs: &mut [P],
    seed: u64,
    limit: u32,
) -> Driven
    requires one_each { length programs.old ≡ system.old.config.cores }
    ensures schedule { Ended true (plan_of P.acts (seeded P.acts) limit)
        (initial_position P.acts system.old programs.old (of_seed seed))
        result.events.items system.new programs.new result.end }
    ensures machine { system.new ≡ after_all system.old result.events.items }
    ensures all_done { result.end ≡ End.AllDone → (core : ℕ) → core < system.old.config.cores →
        (open_op system.new core ≡ None) × (next_in P.acts programs.new core ≡ None) }
    ensures served { AreServed P.acts system.old system.new programs.old programs.new }
{
    let mut schedule = Seeds::new(seed);
    let had_order = system.keeps_order();
    let driven = drive_schedule(alloc, system, programs, &mut schedule, limit);
    restore_order(system, had_order);
    driven
}
