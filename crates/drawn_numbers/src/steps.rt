//! The single steps of a drawer: it draws a number. The first one makes the others, and takes them in at the end.
ghost use Rattle.std.specs.Prelude.{◌≡◌, ℕ, ◌+◌, ◌*◌, ◌<◌, ◌≤◌, false, [], length};
ghost use Rattle.atomic_table.specs.Table.{step};
ghost use mathlib.Core.Option.{none};
ghost use Rattle.seat_views.specs.Seated.{one_more, seat_view, knows};
ghost use Rattle.drawn_numbers.specs.Drawn.{drew, Belongs};

use atomic_table::{Join, Play, Seat, Shared, Split, TableRule};
use seat_views::View;
use std::collections::LinkedList;

type Known = View<LinkedList<u64>>;

/// The rule that all drawers keep.
pub struct Law;

impl TableRule<(), Known, u32> for Law {
    ghost use Rattle.std.specs.Prelude.{[]};
    ghost use Rattle.seat_views.specs.Seated.{first_view};
    ghost use Rattle.drawn_numbers.specs.Drawn.{Drawn};

    ghost holds = { Drawn };

    ghost first = { λ n. first_view [] };
}

/// A drawer's seat at the table, which has one word: the next number.
pub type CounterSeat = Seat<(), Known>;

/// The table, as drawers share it.
pub type CounterTable = Shared<(), Known, u32, Law>;

struct Draws;

impl Play<(), Known> for Draws {
    ghost then = { λ s m r n. drew m r n };
}

struct Makes;

impl Split<Known> for Makes {
    ghost left = { one_more };

    ghost right = { λ v. seat_view v.made [] };
}

struct Meets;

impl Join<Known> for Meets {
    ghost use Rattle.seat_views.specs.Seated.{spent_view};

    ghost both = { knows };

    ghost spent = { spent_view [] };
}

/// Adds 1 to the word, and answers what it was: the number drawn.
pub fn draw_next(table: &CounterTable, seat: &mut CounterSeat) -> u64
    requires table { Belongs seat.old.table_id table.now.table_id table.now.key }
    requires live { seat.old.me.0.spent ≡ false }
    requires few { length seat.old.me.0.mine < 4294967296 }
    ensures table { (seat.new.table_id ≡ seat.old.table_id) × (seat.new.id ≡ seat.old.id) }
    ensures drew { drew seat.old.me result seat.new.me }
{
    table.fetch_add::<Draws>(seat, 0, 1)
}

/// Makes the next drawer's seat.
pub fn make_seat(table: &CounterTable, first: &mut CounterSeat) -> CounterSeat
    requires table { Belongs first.old.table_id table.now.table_id table.now.key }
    requires more { (first.old.me.0.spent ≡ false) × (0 < first.old.me.0.made) ×
        (first.old.me.0.made < table.now.key) }
    ensures table { (first.new.table_id ≡ first.old.table_id) × (first.new.id ≡ first.old.id) ×
        (result.table_id ≡ first.old.table_id) }
    ensures made { (first.new.me ≡ (one_more first.old.me.0, first.old.me.1)) ×
        (result.me ≡ (seat_view first.old.me.0.made [], [])) }
{
    table.split_seat::<Makes>(first)
}

/// Takes in what another seat knows, which is then given up.
pub fn join_view(table: &CounterTable, seat: &mut CounterSeat, other: CounterSeat)
    requires table { Belongs seat.old.table_id table.now.table_id table.now.key ×
        (other.table_id ≡ table.now.table_id) }
    requires live { (seat.old.me.0.spent ≡ false) × (other.me.0.spent ≡ false) ×
        (other.me.1 ≡ []) }
    ensures table { (seat.new.table_id ≡ seat.old.table_id) × (seat.new.id ≡ seat.old.id) }
    ensures met { seat.new.me ≡ (knows seat.old.me.0 other.me.0, seat.old.me.1) }
{
    table.join_seat::<Meets>(seat, other);
}
