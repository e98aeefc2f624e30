//! The calls of a core's seat: what each does, and what it does to the seat's work.
ghost use Rattle.std.specs.Prelude.{◌≡◌, None, OnOk, OnErr};
ghost use Rattle.mailboxes.specs.CoreTurns.{CoreTurns};
ghost use Rattle.mailboxes.specs.Seats.{IsCoreSeat};
ghost use Rattle.thread_driver.specs.Calls.{Attempted, CoreAdvanced, CoreIssued, PlaceMade};
ghost use Rattle.thread_driver.specs.Playing.{AttemptsWork, IssuesWork, OpensWork, SameWork};

use machine_table::{Answer, Refusal};
use mailboxes::{CoreSeat, Machine, Turn};
use network::LineNo;
use physiological_order::{Op, Record};
use seat_rule::parts::records_of_seats_are_counted;

/// Gives a core that has no open operation this one.
pub(crate) fn issue(machine: &Machine, seat: &mut CoreSeat, op: Op) -> Result<(), Refusal>
    requires seat { IsCoreSeat machine.now seat.old }
    requires none { seat.old.part.core.open_op ≡ None }
    ensures seat { IsCoreSeat machine.now seat.new }
    ensures work { IssuesWork op result seat.old seat.new }
    ensures issued { CoreIssued op result seat.old seat.new }
{
    seat.issue(machine, op)
}

/// Advances a core's time by 1.
pub(crate) fn advance(machine: &Machine, seat: &mut CoreSeat) -> Result<(), Refusal>
    requires seat { IsCoreSeat machine.now seat.old }
    ensures seat { IsCoreSeat machine.now seat.new }
    ensures work { SameWork seat.old seat.new }
    ensures advanced { CoreAdvanced result seat.old seat.new }
{
    seat.advance(machine)
}

/// Attempts the open operation: the record if it is completed, none if it waits, or why it was refused.
#[inline(always)]
pub(crate) fn attempt_open_op(
    machine: &Machine,
    seat: &mut CoreSeat,
) -> Result<Option<Record>, Refusal>
    requires seat { IsCoreSeat machine.now seat.old }
    ensures seat { IsCoreSeat machine.now seat.new }
    ensures work { AttemptsWork result seat.old seat.new }
    ensures attempted { Attempted machine.now result seat.old seat.new }
{
    match seat.attempt(machine) {
        Answer::Completed(done) => Ok(Some(done)),
        Answer::Refused(refusal) => Err(refusal),
        _ => Ok(None),
    }
}

/// Evicts the copy that makes room for the line of the open operation.
pub(crate) fn evict_seat_copy_for_place(machine: &Machine, seat: &mut CoreSeat)
    requires seat { IsCoreSeat machine.now seat.old }
    ensures seat { IsCoreSeat machine.now seat.new }
    ensures work { SameWork seat.old seat.new }
    ensures made { PlaceMade seat.old seat.new }
{
    let Some((op, _)) = seat.open_op() else {
        return;
    };
    let line = seat.core().line_of(op);
    let Some(victim) = seat.victim(line) else {
        return;
    };
    let _evicted = seat.evict(machine, victim);
}

/// Puts, serves and takes messages.
pub(crate) fn core_seat_turn(machine: &Machine, seat: &mut CoreSeat) -> Result<Turn, Refusal>
    requires seat { IsCoreSeat machine.now seat.old }
    ensures seat { IsCoreSeat machine.now seat.new }
    ensures work { SameWork seat.old seat.new }
    ensures turned { CoreTurns machine.now seat.old result seat.new }
{
    records_of_seats_are_counted();
    seat.turn(machine)
}
