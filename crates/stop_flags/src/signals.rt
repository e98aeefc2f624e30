//! What signalers share.
ghost use Rattle.std.specs.Prelude.{◌≡◌, ◌<◌};
ghost use Rattle.stop_flags.specs.Told.{Belongs};

use crate::steps::Law;
use crate::words::Voice;
use atomic_table::Table;
use seat_views::View;
use std::alloc::Global;

/// Two words that workers share: how many programs are finished, and whether some seat has stopped.
#[derive(Drop)]
pub struct Signals {
    pub table: Table<(), View<Voice>, u32, Law, Global>,
    pub workers: u32,
    pub ghost keyed: { table.shared.key ≡ workers },
    pub ghost sized: { Belongs table.shared.table_id table.shared.table_id workers },
    pub ghost some: { 0 < workers },
}
