//! The numbers as they open, with all their drawers.
ghost use Rattle.std.specs.Prelude.{◌≡◌, ℕ, ◌+◌, ◌<◌, ◌≤◌, false, [], length, IfOk};
ghost use Rattle.drawn_numbers.specs.Drawers.{AreNewDrawers, AllNewDrawers, HasMade};

use crate::drawer::Drawer;
use crate::numbers::Numbers;
use crate::steps::{CounterSeat, make_seat};
use atomic_table::Table;
use std::alloc::{AllocError, Global};

/// Numbers of which none is drawn, with 1 to 16 drawers, by number. AllocError if memory for them can't be allocated.
pub fn open_numbers(alloc: Global, drawers: u32) -> Result<(Numbers, Vec<Drawer>), AllocError>
    requires { (0 < drawers) × (drawers ≤ 16) }
    ensures { IfOk result (λ r. (r.0.drawers ≡ drawers) × (length r.1.items ≡ drawers) ×
        AreNewDrawers r.0 r.1.items) }
{
    let (numbers, mut first) = open_counter_table(alloc, drawers)?;
    let mut all = open_other_drawers(alloc, &numbers, &mut first)?;
    all.insert(0, new_drawer(alloc, first, 0))?;
    Ok((numbers, all))
}

// The table, with room for the lists, and the first seat.
fn open_counter_table(alloc: Global, drawers: u32) -> Result<(Numbers, CounterSeat), AllocError>
    requires { (0 < drawers) × (drawers ≤ 16) }
    ensures { IfOk result (λ r. (r.0.drawers ≡ drawers) × HasMade r.0 1 r.1) }
{
    let mut lists = Vec::new(alloc);
    for _ in 0..drawers {
        lists.push(Vec::new(alloc))?;
    }
    let (table, first) = Table::of_words(alloc, &[0], &drawers)?;
    let numbers = Numbers {
        table,
        drawers,
        lists,
    };
    Ok((numbers, first))
}

// All drawers but the first.
fn open_other_drawers(
    alloc: Global,
    numbers: &Numbers,
    first: &mut CounterSeat,
) -> Result<Vec<Drawer>, AllocError>
    requires { HasMade numbers.now 1 first.old }
    ensures others { IfOk result (λ ds. (length ds.items + 1 ≡ numbers.now.drawers) ×
        AllNewDrawers numbers.now 1 ds.items) }
    ensures first { IfOk result (λ ds. HasMade numbers.now numbers.now.drawers first.new) }
{
    let mut others = Vec::new(alloc);
    for number in 1..numbers.drawers {
        let seat = make_seat(&numbers.table.shared, first);
        others.push(new_drawer(alloc, seat, number))?;
    }
    Ok(others)
}

// A drawer as it opens.
fn new_drawer(alloc: Global, seat: CounterSeat, number: u32) -> Drawer
    requires { (seat.me.0.number ≡ number) × (seat.me.0.spent ≡ false) ×
        (seat.me.0.mine ≡ []) × (seat.me.1 ≡ []) }
    ensures { (result.seat ≡ seat) × (result.number ≡ number) × (result.drawn.items ≡ []) }
{
    Drawer {
        seat,
        number,
        drawn: Vec::new(alloc),
    }
}
