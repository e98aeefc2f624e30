//! A turn of a core's seat, which is given the steps of its program.
ghost use Rattle.std.specs.Prelude.{◌≡◌, ◌&&◌, is_none, None, Some};
ghost use Rattle.mailboxes.specs.Seats.{IsCoreSeat};
ghost use Rattle.programs.specs.declared.steps.Step.TheVariants as step;
ghost use Rattle.thread_driver.specs.Playing.{IsAhead, Plays, SameWork};
ghost use Rattle.thread_driver.specs.Turns.{AfterRefusal, CoreHadTurn, OpIssued, OpenTried, StepDone, TimeAdvanced};
ghost use Rattle.thread_driver.specs.Turns.{told_of};

use crate::seat_calls::{
    advance, attempt_open_op, core_seat_turn, evict_seat_copy_for_place, issue,
};
use crate::told::{Told, told_of_turn};
use machine_table::Refusal;
use mailboxes::{CoreSeat, Machine, Turn};
use physiological_order::Op;
use programs::Step;
use programs::program::Program;
use shared_jobs::Begun;

/// A turn of a core's seat, which has begun at a gate. It attempts the open operation. If none is open, it does the
/// program's next step: it issues an operation and then attempts it, or advances the core. If there is no place for the
/// operation's line, it evicts a copy. The program receives what was completed, and goes on after an advance. Then the
/// seat puts, serves and takes messages. docs/SCHEDULES.md has the order.
pub fn core_turn<P: Program>(
    machine: &Machine,
    _begun: &Begun,
    seat: &mut CoreSeat,
    program: &mut P,
) -> Told
    requires begun { _begun.now.seat ≡ seat.old.mail.number }
    requires seat { IsCoreSeat machine.now seat.old }
    requires ahead { IsAhead P.acts seat.old program.old }
    ensures seat { IsCoreSeat machine.now seat.new }
    ensures plays { Plays P.acts seat.old program.old seat.new program.new }
    ensures turn { CoreHadTurn P.acts machine.now
        seat.old program.old result seat.new program.new }
{
    let was_stopped = seat.is_stopped();
    let done = do_next_step(machine, seat, program);
    let moved = core_seat_turn(machine, seat);
    told_of_core_turn(was_stopped, seat.is_stopped(), done, moved)
}

/// Whether a core's seat has no open operation and its program no next step.
pub fn is_over<P: Program>(seat: &CoreSeat, program: &P) -> bool
    ensures { result ≡ (is_none seat.now.part.core.open_op && is_none (P.acts.next program.now)) }
{
    seat.open_op().is_none() && program.next().is_none()
}

// Does the program's next step, or attempts the operation that is open. Whether it was done, or why it was refused.
fn do_next_step<P: Program>(
    machine: &Machine,
    seat: &mut CoreSeat,
    program: &mut P,
) -> Result<bool, Refusal>
    requires seat { IsCoreSeat machine.now seat.old }
    requires ahead { IsAhead P.acts seat.old program.old }
    ensures seat { IsCoreSeat machine.now seat.new }
    ensures plays { Plays P.acts seat.old program.old seat.new program.new }
    ensures step { StepDone P.acts machine.now seat.old.part.core.open_op
        seat.old program.old result seat.new program.new }
{
    if seat.open_op().is_some() {
        return attempt_for_program(machine, seat, program);
    }
    match program.next() {
        None => Ok(false),
        Some(Step::Advance) => advance_next(machine, seat, program),
        Some(Step::Op(op)) => issue_next(machine, seat, program, op),
    }
}

// Advances the core, which is the program's next step.
fn advance_next<P: Program>(
    machine: &Machine,
    seat: &mut CoreSeat,
    program: &mut P,
) -> Result<bool, Refusal>
    requires seat { IsCoreSeat machine.now seat.old }
    requires none { seat.old.part.core.open_op ≡ None }
    requires next { P.acts.next program.old ≡ Some step.Advance }
    ensures seat { IsCoreSeat machine.now seat.new }
    ensures plays { Plays P.acts seat.old program.old seat.new program.new }
    ensures step { TimeAdvanced P.acts seat.old program.old result seat.new program.new }
{
    match advance(machine, seat) {
        Ok(()) => {
            program.done(None);
            Ok(true)
        }
        Err(refusal) => Err(refusal),
    }
}

// Issues the operation that is the program's next step, and attempts it.
fn issue_next<P: Program>(
    machine: &Machine,
    seat: &mut CoreSeat,
    program: &mut P,
    op: Op,
) -> Result<bool, Refusal>
    requires seat { IsCoreSeat machine.now seat.old }
    requires none { seat.old.part.core.open_op ≡ None }
    requires next { P.acts.next program.old ≡ Some (step.Op op) }
    ensures seat { IsCoreSeat machine.now seat.new }
    ensures plays { Plays P.acts seat.old program.old seat.new program.new }
    ensures step { OpIssued P.acts machine.now op
        seat.old program.old result seat.new program.new }
{
    match issue(machine, seat, op) {
        Ok(()) => attempt_for_program(machine, seat, program),
        Err(refusal) => Err(refusal),
    }
}

// Attempts the open operation, and tells the program if it is completed. If there is no place for its line, a copy
// goes.
#[inline(always)]
fn attempt_for_program<P: Program>(
    machine: &Machine,
    seat: &mut CoreSeat,
    program: &mut P,
) -> Result<bool, Refusal>
    requires seat { IsCoreSeat machine.now seat.old }
    requires ahead { IsAhead P.acts seat.old program.old }
    ensures seat { IsCoreSeat machine.now seat.new }
    ensures plays { Plays P.acts seat.old program.old seat.new program.new }
    ensures step { OpenTried P.acts machine.now seat.old program.old result seat.new program.new }
{
    match attempt_open_op(machine, seat) {
        Ok(None) => Ok(false),
        Ok(Some(done)) => {
            program.done(done.received);
            Ok(true)
        }
        Err(refusal) => handle_refusal(machine, seat, refusal),
    }
}

// For a refusal of an attempt: a copy goes if there is no place for the line, and then no step is done. Any other is
// told.
#[inline(never)]
fn handle_refusal(machine: &Machine, seat: &mut CoreSeat, refusal: Refusal) -> Result<bool, Refusal>
    requires { IsCoreSeat machine.now seat.old }
    ensures seat { IsCoreSeat machine.now seat.new }
    ensures work { SameWork seat.old seat.new }
    ensures after { AfterRefusal refusal seat.old result seat.new }
{
    match refusal {
        Refusal::NoRoom => {
            evict_seat_copy_for_place(machine, seat);
            Ok(false)
        }
        _ => Err(refusal),
    }
}

// What a core's turn tells: whether it stopped, what its step came to, and the turn of its seat.
fn told_of_core_turn(
    was_stopped: bool,
    is_stopped: bool,
    done: Result<bool, Refusal>,
    moved: Result<Turn, Refusal>,
) -> Told
    ensures { result ≡ told_of was_stopped is_stopped done moved }
{
    let is_done = matches!(done, Ok(true));
    let is_refused = matches!(done, Err(Refusal::NoMemory));
    let told = told_of_turn(was_stopped, is_stopped, moved);
    Told {
        no_memory: told.no_memory || is_refused,
        is_exhausted: told.is_exhausted,
        has_progressed: told.has_progressed || is_done,
    }
}
