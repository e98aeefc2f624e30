//! What drawers share.
ghost use Rattle.std.specs.Prelude.{◌≡◌, ◌<◌, length};
ghost use Rattle.drawn_numbers.specs.Drawn.{Belongs};

use crate::steps::Law;
use atomic_table::Table;
use seat_views::View;
use std::alloc::Global;
use std::collections::LinkedList;

/// The numbers 0, 1, 2, .. of which each draw gives the next one, to any drawer (README.md). The lists are room for
/// what the drawers drew, one for each.
#[derive(Drop)]
pub struct Numbers {
    pub table: Table<(), View<LinkedList<u64>>, u32, Law, Global>,
    pub drawers: u32,
    pub lists: Vec<Vec<u64>>,
    pub ghost keyed: { table.shared.key ≡ drawers },
    pub ghost sized: { Belongs table.shared.table_id table.shared.table_id drawers },
    pub ghost some: { 0 < drawers },
    pub ghost room: { length lists.items ≡ drawers },
}
