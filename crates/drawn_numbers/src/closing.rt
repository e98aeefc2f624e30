//! The end: all drawers are given up, and leave what they drew.
ghost use Rattle.std.specs.Prelude.{◌≡◌, ℕ, ◌<◌, false, length, map, slice_set};
ghost use Rattle.drawn_numbers.specs.Drawn.{Belongs};
ghost use Rattle.drawn_numbers.specs.Drawers.{AllDrawersOf, HasDrawers};
ghost use Rattle.drawn_numbers.specs.Dealt.{AllDrawn, AllAt, knows_all, lists_filled};

use crate::drawer::Drawer;
use crate::numbers::Numbers;
use crate::steps::{CounterSeat, CounterTable, join_view};

impl Numbers {
    /// Gives up the numbers and all their drawers. The list at a drawer's number is what it drew, in order. Together
    /// the lists are the numbers below some bound, each once. The call allocates nothing.
    pub fn close(self, mut drawers: Vec<Drawer>) -> Vec<Vec<u64>>
        requires drawers { AllDrawersOf self drawers.items }
        requires whole { HasDrawers drawers.items self.drawers }
        ensures { AllDrawn self.drawers drawers.items (map (λ xs. xs.items) result.items) }
    {
        let Numbers {
            table,
            mut lists,
            ..
        } = self;
        let last = drawers.pop();
        let mut seat = close_drawer(last.unwrap(), &mut lists);
        join_drawers(&table.shared, &mut seat, drawers, &mut lists);
        let closed = table.close_with(seat);
        closed.free();
        lists
    }
}

// Joins drawers from the last to the first.
fn join_drawers(
    table: &CounterTable,
    seat: &mut CounterSeat,
    mut drawers: Vec<Drawer>,
    lists: &mut Vec<Vec<u64>>,
)
    requires table { Belongs seat.old.table_id table.now.table_id table.now.key }
    requires drawers { AllAt table.now.table_id (length lists.old.items) drawers.items }
    requires live { seat.old.me.0.spent ≡ false }
    ensures table { (seat.new.table_id ≡ seat.old.table_id) × (seat.new.id ≡ seat.old.id) }
    ensures met { seat.new.me ≡ (knows_all seat.old.me.0 drawers.items, seat.old.me.1) }
    ensures lists { lists.new.items ≡ lists_filled drawers.items lists.old.items }
{
    while let Some(drawer) = drawers.pop() {
        let other = close_drawer(drawer, lists);
        join_view(table, seat, other);
    }
}

// Puts what a drawer drew at its number, and gives its seat at the table.
fn close_drawer(drawer: Drawer, lists: &mut Vec<Vec<u64>>) -> CounterSeat
    requires { drawer.number < length lists.old.items }
    ensures counter_seat { result ≡ drawer.seat }
    ensures list { lists.new.items ≡ slice_set lists.old.items drawer.number drawer.drawn }
{
    let Drawer {
        seat,
        number,
        drawn,
    } = drawer;
    lists[number as usize] = drawn;
    seat
}
