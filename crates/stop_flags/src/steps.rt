//! The single steps of a signaler: it signals that a program is finished or that a seat has stopped, and reads the two
//! words. The first one makes the others, and the last one takes them in at the end.
ghost use Rattle.std.specs.Prelude.{◌≡◌, ℕ, ◌+◌, ◌*◌, ◌<◌, ◌≤◌, false, []};
ghost use Rattle.atomic_table.specs.Table.{step};
ghost use mathlib.Core.Option.{none};
ghost use Rattle.seat_views.specs.Seated.{one_more, seat_view, knows};
ghost use Rattle.stop_flags.specs.Told.{nothing, voice, Belongs};
ghost use Rattle.stop_flags.specs.Told.{told_finished, told_stopped, heard_finished, heard_stopped};

use crate::words::Voice;
use atomic_table::{Join, Play, Seat, Shared, Split, TableRule};
use seat_views::View;

type Known = View<Voice>;

/// The rule that all signalers keep.
pub struct Law;

impl TableRule<(), Known, u32> for Law {
    ghost use Rattle.seat_views.specs.Seated.{first_view};
    ghost use Rattle.stop_flags.specs.Told.{FlagsHold};

    ghost holds = { FlagsHold };

    ghost first = { λ n. first_view (voice n nothing) };
}

/// A signaler's seat at the table, which has two words: how many programs are finished, and 1 once a seat has stopped.
pub type FlagSeat = Seat<(), Known>;

/// The table, as signalers share it.
pub type FlagTable = Shared<(), Known, u32, Law>;

struct Finishes;

impl Play<(), Known> for Finishes {
    ghost then = { λ s m r n. told_finished m n };
}

struct Stops;

impl Play<(), Known> for Stops {
    ghost then = { λ s m r n. told_stopped m n };
}

struct HearsFinished;

impl Play<(), Known> for HearsFinished {
    ghost then = { λ s m r n. heard_finished m r n };
}

struct HearsStopped;

impl Play<(), Known> for HearsStopped {
    ghost then = { λ s m r n. heard_stopped m r n };
}

struct Makes;

impl Split<Known> for Makes {
    ghost left = { one_more };

    ghost right = { λ v. seat_view v.made (voice v.mine.workers nothing) };
}

struct Meets;

impl Join<Known> for Meets {
    ghost use Rattle.seat_views.specs.Seated.{spent_view};

    ghost both = { knows };

    ghost spent = { spent_view (voice 0 nothing) };
}

/// Adds 1 to the word of the finished programs.
pub fn signal_finished(table: &FlagTable, seat: &mut FlagSeat)
    requires table { Belongs seat.old.table_id table.now.table_id table.now.key }
    requires live { seat.old.me.0.spent ≡ false }
    requires few { seat.old.me.0.mine.said.finished < 4294967296 }
    ensures table { (seat.new.table_id ≡ seat.old.table_id) × (seat.new.id ≡ seat.old.id) }
    ensures told { told_finished seat.old.me seat.new.me }
{
    table.fetch_add::<Finishes>(seat, 0, 1);
}

/// Makes the word of the stop 1, whether it is so already or not.
pub fn signal_stopped(table: &FlagTable, seat: &mut FlagSeat)
    requires table { Belongs seat.old.table_id table.now.table_id table.now.key }
    requires live { seat.old.me.0.spent ≡ false }
    ensures table { (seat.new.table_id ≡ seat.old.table_id) × (seat.new.id ≡ seat.old.id) }
    ensures told { told_stopped seat.old.me seat.new.me }
{
    table.fetch_or::<Stops>(seat, 1, 1);
}

/// Reads the word of the finished programs.
pub fn read_finished(table: &FlagTable, seat: &mut FlagSeat) -> u64
    requires table { Belongs seat.old.table_id table.now.table_id table.now.key }
    requires live { seat.old.me.0.spent ≡ false }
    ensures table { (seat.new.table_id ≡ seat.old.table_id) × (seat.new.id ≡ seat.old.id) }
    ensures heard { heard_finished seat.old.me result seat.new.me }
{
    table.load::<HearsFinished>(seat, 0)
}

/// Reads the word of the stop.
pub fn read_stopped(table: &FlagTable, seat: &mut FlagSeat) -> u64
    requires table { Belongs seat.old.table_id table.now.table_id table.now.key }
    requires live { seat.old.me.0.spent ≡ false }
    ensures table { (seat.new.table_id ≡ seat.old.table_id) × (seat.new.id ≡ seat.old.id) }
    ensures heard { heard_stopped seat.old.me result seat.new.me }
{
    table.load::<HearsStopped>(seat, 1)
}

/// Makes the next signaler's seat.
#[tactic(auto, using(crate::proofs::Tells::splitting))]
pub fn make_seat(table: &FlagTable, first: &mut FlagSeat) -> FlagSeat
    requires table { Belongs first.old.table_id table.now.table_id table.now.key }
    requires more { (first.old.me.0.spent ≡ false) × (0 < first.old.me.0.made) ×
        (first.old.me.0.made < table.now.key) }
    ensures table { (first.new.table_id ≡ first.old.table_id) × (first.new.id ≡ first.old.id) ×
        (result.table_id ≡ first.old.table_id) }
    ensures made { (first.new.me ≡ (one_more first.old.me.0, first.old.me.1)) ×
        (result.me ≡ (
          seat_view first.old.me.0.made
              (voice first.old.me.0.mine.workers nothing),
          [],
        )) }
{
    table.split_seat::<Makes>(first)
}

/// Takes in what another seat knows, which is then given up.
#[tactic(auto, using(crate::proofs::Tells::joining))]
pub fn join_view(table: &FlagTable, seat: &mut FlagSeat, other: FlagSeat)
    requires table { Belongs seat.old.table_id table.now.table_id table.now.key ×
        (other.table_id ≡ table.now.table_id) }
    requires live { (seat.old.me.0.spent ≡ false) × (other.me.0.spent ≡ false) ×
        (other.me.1 ≡ []) }
    ensures table { (seat.new.table_id ≡ seat.old.table_id) × (seat.new.id ≡ seat.old.id) }
    ensures met { seat.new.me ≡ (knows seat.old.me.0 other.me.0, seat.old.me.1) }
{
    table.join_seat::<Meets>(seat, other);
}
