//! The machine that seats share.
ghost use Rattle.std.specs.Prelude.{◌≡◌, true};
ghost use Rattle.machine_table.specs.SetUp.{is_good};
ghost use Rattle.mailboxes.specs.Places.{Belongs};

use crate::steps::Law;
use atomic_table::Table;
use network::Message;
use seat_rule::{Hold, SetUp};
use seat_views::View;
use std::alloc::Global;

/// A machine that threads share: the slots of all links, and the word that counts completions.
#[derive(Drop)]
pub struct Machine {
    pub(crate) table: Table<Option<Message>, View<Hold>, SetUp, Law, Global>,
    pub(crate) set_up: SetUp,
    pub ghost good: { is_good set_up.config ≡ true },
    pub ghost keyed: { table.shared.key ≡ set_up },
    pub ghost sized: { Belongs table.shared.table_id table.shared.table_id set_up },
}
