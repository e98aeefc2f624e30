//! Rounds as a schedule: each core has its turn, in rising order, and then each message that is in flight is delivered.
ghost use Rattle.std.specs.Prelude.{◌≡◌, List, IfOk, is_some, true};
ghost use Rattle.machine_table.specs.Machine.{open_op};
ghost use Rattle.schedules.specs.Parts.{delivery, for_each};
ghost use Rattle.schedules.specs.RoundSchedule.{no_round, steps_on, tries_twice, core_turn, core_turns};
ghost use Rattle.schedules.specs.Notes.{Did, at};

use crate::log::Log;
use crate::look_ups::next_step_of_core;
use crate::schedule::Schedule;
use crate::turn::{attempt_or_make_place, deliver_or_make_room, do_program_step, make_event};
use crate::watcher::Watcher;
use interleaving_core::{Event, History, System};
use network::MsgNo;
use programs::End;
use programs::program::Program;
use std::alloc::Global;
use std::marker::Model;

// How many cores have turns, whether rounds are fair, and the list of the messages that a round delivers. It keeps its
// memory from round to round.
#[derive(Drop)]
pub(crate) struct Rounds {
    cores: u32,
    is_fair: bool,
    numbers: Vec<MsgNo>,
}

impl Model for Rounds {
    ghost use Rattle.schedules.specs.RoundSchedule.{Round, no_round};

    ghost Value = { Round };

    // The list is of no use between turns.
    ghost view = { λ a. no_round a.is_fair a.cores };
}

impl Rounds {
    // Before the first round.
    pub(crate) fn new(alloc: Global, is_fair: bool, cores: u32) -> Rounds
        ensures { result ≡ no_round is_fair cores }
    {
        Rounds {
            cores,
            is_fair,
            numbers: Vec::new(alloc),
        }
    }
}

// A core without an open operation does its program's next step. The result says whether it has one afterwards.
#[inline(always)]
fn begin_next_step<P: Program, W: Watcher, K: History>(
    system: &mut System<K>,
    programs: &mut [P],
    log: &mut Log<W>,
    core: u32,
) -> Result<bool, End>
    ensures did { Did P.acts W.watches (steps_on P.acts core) (at system.old programs.old log.old) result
        (at system.new programs.new log.new) }
    ensures has { IfOk result (λ has. has ≡ is_some (open_op system.new core)) }
{
    if system.open_op(core).is_some() {
        return Ok(true);
    }
    let Some(next) = next_step_of_core(programs, core) else {
        return Ok(false);
    };
    do_program_step(system, programs, log, core, &next)?;
    Ok(system.open_op(core).is_some())
}

// An open operation is attempted, and once more after a copy was to go.
#[inline(always)]
fn attempt_with_retry<P: Program, W: Watcher, K: History>(
    system: &mut System<K>,
    programs: &mut [P],
    log: &mut Log<W>,
    core: u32,
) -> Result<(), End>
    ensures { Did P.acts W.watches (tries_twice P.acts core) (at system.old programs.old log.old) result
        (at system.new programs.new log.new) }
{
    if attempt_or_make_place(system, programs, log, core)? {
        return make_event(system, programs, log, &Event::Attempt(core));
    }
    Ok(())
}

// A core's turn.
#[inline(always)]
fn core_turn<P: Program, W: Watcher, K: History>(
    system: &mut System<K>,
    programs: &mut [P],
    log: &mut Log<W>,
    core: u32,
) -> Result<(), End>
    ensures { Did P.acts W.watches (core_turn P.acts core) (at system.old programs.old log.old) result
        (at system.new programs.new log.new) }
{
    match begin_next_step(system, programs, log, core) {
        Ok(true) => attempt_with_retry(system, programs, log, core),
        Ok(false) => Ok(()),
        Err(end) => Err(end),
    }
}

// The cores' turns.
#[inline(always)]
fn core_turns<P: Program, W: Watcher, K: History>(
    system: &mut System<K>,
    programs: &mut [P],
    log: &mut Log<W>,
    cores: u32,
) -> Result<(), End>
    ensures { Did P.acts W.watches (core_turns P.acts cores) (at system.old programs.old log.old) result
        (at system.new programs.new log.new) }
{
    for core in 0..cores {
        if let Err(end) = core_turn(system, programs, log, core) {
            return Err(end);
        }
    }
    Ok(())
}

// The messages with these numbers are delivered.
#[inline(always)]
fn deliver_messages<P: Program, W: Watcher, K: History>(
    system: &mut System<K>,
    log: &mut Log<W>,
    is_fair: bool,
    numbers: &[MsgNo],
) -> Result<(), End>
    ensures { (programs : List P) → Did P.acts W.watches
        (for_each P.acts (delivery P.acts is_fair) numbers.now) (at system.old programs log.old) result
        (at system.new programs log.new) }
{
    for number in numbers {
        deliver_or_make_room::<P, W, K>(system, log, is_fair, *number)?;
    }
    Ok(())
}

impl<P: Program> Schedule<P> for Rounds {
    ghost use Rattle.schedules.specs.RoundSchedule.{rounds};

    ghost rule = { rounds P.acts };

    fn turn<W: Watcher, K: History>(
        &mut self,
        system: &mut System<K>,
        programs: &mut [P],
        log: &mut Log<W>,
    ) -> Result<(), End> {
        core_turns(system, programs, log, self.cores)?;
        let _first = system.seek_message(0);
        if system.list_in_flight(&mut self.numbers).is_err() {
            return Err(End::NoMemory);
        }
        deliver_messages::<P, W, K>(system, log, self.is_fair, self.numbers.as_slice())
    }

    fn stalls(&self) -> bool {
        true
    }
}
