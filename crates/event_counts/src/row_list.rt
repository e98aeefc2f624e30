//! The counts as they were at some events, with room for those at one more.
ghost use Rattle.std.specs.Prelude.{◌≡◌, ◌++◌, ◌∷◌, [], IsTrue, OnOk};
ghost use Rattle.event_counts.specs.Counting.{FitsIn, HasRow};

use crate::event_counts::EventCounts;
use std::alloc::{AllocError, Global};
use std::marker::Model;

/// Rows, with room for one more: contracts see both.
#[derive(Drop)]
pub(crate) struct RowList {
    rows: Vec<EventCounts>,
    // Counts that the next row's are copied to.
    spare: Option<EventCounts>,
    alloc: Global,
}

impl Model for RowList {
    ghost use Rattle.std.specs.Prelude.{◌-◌, vec_capacity, vec_len};
    ghost use Rattle.event_counts.specs.Counting.{Rows};

    ghost Value = { Rows };

    ghost view = { λ a. record { rows = a.rows.items; room = vec_capacity a.rows - vec_len a.rows; spare = a.spare } };
}

impl RowList {
    /// No rows. It allocates nothing yet.
    pub(crate) fn new(alloc: Global) -> RowList
        ensures { result.rows ≡ [] }
    {
        RowList {
            rows: Vec::new(alloc),
            spare: None,
            alloc,
        }
    }

    /// The rows.
    pub(crate) fn rows(&self) -> &[EventCounts]
        ensures { result.now ≡ self.now.rows }
    {
        &self.rows
    }

    /// Makes room for a copy of these counts.
    pub(crate) fn reserve(&mut self, counts: &EventCounts) -> Result<(), AllocError>
        ensures same { self.new.rows ≡ self.old.rows }
        ensures room { OnOk result (HasRow counts.now self.new) }
    {
        self.rows.reserve(1)?;
        if self.has_spare(counts) {
            return Ok(());
        }
        self.spare = Some(counts.of_this_size(self.alloc)?);
        Ok(())
    }

    // Whether these counts can be copied.
    fn has_spare(&self, counts: &EventCounts) -> bool
        ensures { IsTrue result → FitsIn counts.now self.now.spare }
    {
        match &self.spare {
            None => false,
            Some(spare) => counts.is_of_this_size(spare),
        }
    }

    /// Adds a copy of these counts as the last row.
    pub(crate) fn push(&mut self, counts: &EventCounts)
        requires { HasRow counts.now self.old }
        ensures { self.new.rows ≡ self.old.rows ++ counts.now ∷ [] }
    {
        if let Some(mut row) = self.spare.take() {
            row.copy_from(counts);
            self.rows.push_reserved(row);
        }
    }
}
