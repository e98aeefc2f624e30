//! A turn of a bank's seat.
ghost use Rattle.std.specs.Prelude.{◌≡◌, ◌&&◌, not};
ghost use Rattle.mailboxes.specs.Seats.{IsBankSeat};
ghost use Rattle.thread_driver.specs.Turns.{BankHad, BankHadFairTurn, BankHadTurn, RoomMadeIf, has_moved};

use crate::told::{Told, has_moved_messages, told_of_turn};
use machine_table::Refusal;
use mailboxes::{BankSeat, Machine, Turn};
use shared_jobs::Begun;

/// A turn of a bank's seat, which has begun at a gate. If a held request waits for room, the turn evicts the line that
/// makes room for it. Then the seat puts, serves and takes messages. docs/SCHEDULES.md has the order.
pub fn bank_turn(machine: &Machine, begun: &Begun, seat: &mut BankSeat) -> Told
    requires begun { begun.now.seat ≡ seat.old.mail.number }
    requires seat { IsBankSeat machine.now seat.old }
    ensures seat { IsBankSeat machine.now seat.new ×
        (seat.new.mail.number ≡ seat.old.mail.number) }
    ensures turn { BankHadTurn machine.now seat.old result seat.new }
{
    any_bank_turn(machine, begun, seat, false)
}

/// A fair turn of a bank's seat, which has begun at a gate. The seat puts, serves and takes messages. If nothing was
/// put or served, and a held request waits for room, the turn then evicts the line that makes room for it.
pub fn fair_bank_turn(machine: &Machine, begun: &Begun, seat: &mut BankSeat) -> Told
    requires begun { begun.now.seat ≡ seat.old.mail.number }
    requires seat { IsBankSeat machine.now seat.old }
    ensures seat { IsBankSeat machine.now seat.new ×
        (seat.new.mail.number ≡ seat.old.mail.number) }
    ensures turn { BankHadFairTurn machine.now seat.old result seat.new }
{
    any_bank_turn(machine, begun, seat, true)
}

/// A turn of a bank's seat, fair or not.
#[inline(always)]
pub(crate) fn any_bank_turn(
    machine: &Machine,
    _begun: &Begun,
    seat: &mut BankSeat,
    fair: bool,
) -> Told
    requires begun { _begun.now.seat ≡ seat.old.mail.number }
    requires seat { IsBankSeat machine.now seat.old }
    ensures seat { IsBankSeat machine.now seat.new ×
        (seat.new.mail.number ≡ seat.old.mail.number) }
    ensures turn { BankHad fair machine.now seat.old result seat.new }
{
    let was_stopped = seat.is_stopped();
    make_room(machine, seat, !fair);
    let moved = seat.turn(machine);
    make_room(machine, seat, room_is_due(fair, moved));
    told_of_turn(was_stopped, seat.is_stopped(), moved)
}

// Whether room is made after the seat's own turn: in a fair turn, if that made no progress.
fn room_is_due(fair: bool, moved: Result<Turn, Refusal>) -> bool
    ensures { result ≡ (fair && not (has_moved moved)) }
{
    fair && !has_moved_messages(moved)
}

// If that is due, evicts the line that makes room for the oldest held request that waits for room, if there is one.
#[inline(always)]
fn make_room(machine: &Machine, seat: &mut BankSeat, is_due: bool)
    requires { IsBankSeat machine.now seat.old }
    ensures seat { IsBankSeat machine.now seat.new }
    ensures number { seat.new.mail.number ≡ seat.old.mail.number }
    ensures made { RoomMadeIf is_due seat.old seat.new }
{
    if !is_due {
        return;
    }
    let Some(line) = seat.make_room() else {
        return;
    };
    let _evicted = seat.evict(machine, line);
}
