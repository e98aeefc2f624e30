//! Which line of a full set makes room.
ghost use Rattle.std.specs.Prelude.{◌≡◌, ◌<◌, length};
ghost use Rattle.line_sets.specs.SetTable.{set_at};
ghost use Rattle.llc_bank.specs.BankTable.{chosen};
ghost use Rattle.llc_bank.specs.Settled.{passes};

use crate::entry::Entry;
use line_sets::{LineSets, LineTest};
use network::LineNo;

/// What a test asks of the entry of a line.
pub enum EntryTest {
    /// Nothing is under way for it.
    Settled,
    /// No core owns it.
    Shared,
}

impl LineTest<Entry> for EntryTest {
    ghost use Rattle.llc_bank.specs.Settled.{passes};

    ghost passes = { passes };

    fn passes(&self, entry: &Entry) -> bool {
        match self {
            EntryTest::Settled => entry.is_settled(),
            EntryTest::Shared => entry.is_shared(),
        }
    }
}

/// The line of a full set to evict to make room, where nothing is under way for any line of the set.
#[inline(never)]
pub(crate) fn choose_line_to_evict(table: &LineSets<Entry>, set: usize) -> Option<LineNo>
    requires { set < length table.now.sets }
    ensures { result ≡ chosen (set_at table.now.sets set) }
{
    if let Some(line) = table.first_where(set, &EntryTest::Shared) {
        return Some(LineNo(line));
    }
    let line = table.first_where(set, &EntryTest::Settled)?;
    Some(LineNo(line))
}
