//! The parts of a turn: each event is noted, the program receives what it completed, and the eviction follows that
//! makes a place.
ghost use Rattle.std.specs.Prelude.{◌≡◌, IfOk, List};
ghost use Rattle.schedules.specs.Parts.{Does, Advances, one, finds_no_place, tries, makes_place, makes_room, delivery};
ghost use Rattle.schedules.specs.RoundSchedule.{step_action};
ghost use Rattle.schedules.specs.Notes.{Did, at};

use crate::log::{
    Log, attempt_and_log, deliver_and_log, is_evicted, is_held, is_no_room, step_and_log,
};
use crate::look_ups::{mark_advance_done, mark_operation_done};
use crate::watcher::Watcher;
use interleaving_core::{Event, History, System};
use network::MsgNo;
use programs::program::Program;
use programs::{End, Step};

// Makes an event that nothing follows.
#[inline(always)]
pub(crate) fn make_event<P: Program, W: Watcher, K: History>(
    system: &mut System<K>,
    programs: &mut [P],
    log: &mut Log<W>,
    event: &Event,
) -> Result<(), End>
    ensures { Did P.acts W.watches (one (Does event.now)) (at system.old programs.old log.old) result
        (at system.new programs.new log.new) }
{
    let plain = step_and_log(log, system, event)?;
    mark_operation_done(system, programs, log, &plain);
    Ok(())
}

// An attempt; if there is no place for the line, a copy goes. The result says whether there was none.
#[inline(always)]
pub(crate) fn attempt_or_make_place<P: Program, W: Watcher, K: History>(
    system: &mut System<K>,
    programs: &mut [P],
    log: &mut Log<W>,
    core: u32,
) -> Result<bool, End>
    ensures did { Did P.acts W.watches (tries P.acts core) (at system.old programs.old log.old) result
        (at system.new programs.new log.new) }
    ensures full { IfOk result (λ full. full ≡ finds_no_place system.old core) }
{
    let plain = attempt_and_log(log, system, core)?;
    if is_no_room(&plain) {
        evict_copy_for_place::<P, W, K>(system, log, core)?;
        return Ok(true);
    }
    mark_operation_done(system, programs, log, &plain);
    Ok(false)
}

// A copy goes so that there is a place for the line of a core's open operation.
#[inline(always)]
fn evict_copy_for_place<P: Program, W: Watcher, K: History>(
    system: &mut System<K>,
    log: &mut Log<W>,
    core: u32,
) -> Result<(), End>
    ensures { (programs : List P) → Did P.acts W.watches (makes_place core) (at system.old programs log.old)
        result (at system.new programs log.new) }
{
    let Some(line) = system.open_victim(core) else {
        return Ok(());
    };
    step_and_log(log, system, &Event::EvictCache(core, line))?;
    Ok(())
}

// A message is delivered; if it is held, a line leaves its bank if that makes a place.
#[inline(always)]
pub(crate) fn deliver_or_make_room<P: Program, W: Watcher, K: History>(
    system: &mut System<K>,
    log: &mut Log<W>,
    is_fair: bool,
    number: MsgNo,
) -> Result<(), End>
    ensures { (programs : List P) → Did P.acts W.watches (delivery P.acts is_fair number)
        (at system.old programs log.old) result (at system.new programs log.new) }
{
    let mut waits = false;
    let plain = deliver_and_log(log, system, number, &mut waits)?;
    if waits {
        return Ok(());
    }
    if is_held(&plain) {
        return evict_line_for_room::<P, W, K>(system, log, is_fair, number);
    }
    Ok(())
}

// A line leaves the bank of a held message, if that makes a place for it. If that is answered Evicted and rounds are
// fair, the message is delivered once more.
#[inline(always)]
fn evict_line_for_room<P: Program, W: Watcher, K: History>(
    system: &mut System<K>,
    log: &mut Log<W>,
    is_fair: bool,
    number: MsgNo,
) -> Result<(), End>
    ensures { (programs : List P) → Did P.acts W.watches (makes_room P.acts is_fair number)
        (at system.old programs log.old) result (at system.new programs log.new) }
{
    let Some(victim) = system.make_room(number) else {
        return Ok(());
    };
    let plain = step_and_log(log, system, &Event::EvictBank(victim.0, victim.1))?;
    if is_fair && is_evicted(&plain) {
        return deliver_again::<P, W, K>(system, log, number);
    }
    Ok(())
}

// A message that was held is delivered once more. Rounds that aren't fair pay nothing for this.
#[inline(never)]
fn deliver_again<P: Program, W: Watcher, K: History>(
    system: &mut System<K>,
    log: &mut Log<W>,
    number: MsgNo,
) -> Result<(), End>
    ensures { (programs : List P) → Did P.acts W.watches (one (Does (Event.Deliver number)))
        (at system.old programs log.old) result (at system.new programs log.new) }
{
    step_and_log(log, system, &Event::Deliver(number))?;
    Ok(())
}

// A core advances, and its program is told.
fn advance_core<P: Program, W: Watcher, K: History>(
    system: &mut System<K>,
    programs: &mut [P],
    log: &mut Log<W>,
    core: u32,
) -> Result<(), End>
    ensures { Did P.acts W.watches (one (Advances core)) (at system.old programs.old log.old) result
        (at system.new programs.new log.new) }
{
    let plain = step_and_log(log, system, &Event::Advance(core))?;
    mark_advance_done(programs, log, core, &plain);
    Ok(())
}

// A core does this step of its program.
#[inline(always)]
pub(crate) fn do_program_step<P: Program, W: Watcher, K: History>(
    system: &mut System<K>,
    programs: &mut [P],
    log: &mut Log<W>,
    core: u32,
    next: &Step,
) -> Result<(), End>
    ensures { Did P.acts W.watches (one (step_action core next.now)) (at system.old programs.old log.old) result
        (at system.new programs.new log.new) }
{
    match *next {
        Step::Op(op) => make_event(system, programs, log, &Event::Issue(core, op)),
        Step::Advance => advance_core(system, programs, log, core),
    }
}
