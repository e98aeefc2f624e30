//! The end: all signalers are given up, and then what they found is known to be what they said.
ghost use Rattle.std.specs.Prelude.{◌≡◌, false};
ghost use Rattle.stop_flags.specs.Told.{Belongs};
ghost use Rattle.stop_flags.specs.Heard.{AllAt, AllHeard, knows_all};
ghost use Rattle.stop_flags.specs.Signalers.{AreAllSignalers};

use crate::signaler::Signaler;
use crate::signals::Signals;
use crate::steps::{FlagSeat, FlagTable, join_view};

impl Signals {
    /// Gives up the signals and all their signalers. Together these have finished as many programs as the last look of
    /// any of them found, or more, and if it found a stop, one of them has signaled it.
    pub fn close(self, mut signalers: Vec<Signaler>)
        requires { AreAllSignalers self signalers.items }
        ensures { AllHeard signalers.items }
    {
        let Signals { table, .. } = self;
        let last = signalers.pop();
        let mut seat = seat_of_signaler(last.unwrap());
        join_signalers(&table.shared, &mut seat, signalers);
        let closed = table.close_with(seat);
        closed.free();
    }
}

// Joins signalers from the last to the first.
fn join_signalers(table: &FlagTable, seat: &mut FlagSeat, mut signalers: Vec<Signaler>)
    requires table { Belongs seat.old.table_id table.now.table_id table.now.key }
    requires signalers { AllAt table.now.table_id signalers.items }
    requires live { seat.old.me.0.spent ≡ false }
    ensures table { (seat.new.table_id ≡ seat.old.table_id) × (seat.new.id ≡ seat.old.id) }
    ensures met { seat.new.me ≡ (knows_all seat.old.me.0 signalers.items, seat.old.me.1) }
{
    while let Some(signaler) = signalers.pop() {
        let other = seat_of_signaler(signaler);
        join_view(table, seat, other);
    }
}

// The signaler's seat at the table.
fn seat_of_signaler(signaler: Signaler) -> FlagSeat
    ensures { result ≡ signaler.seat }
{
    let Signaler { seat, .. } = signaler;
    seat
}
