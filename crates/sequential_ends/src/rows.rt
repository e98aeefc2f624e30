//! Rows of words, each once and with an order of turns, as they were first added.

ghost use Rattle.std.specs.Prelude.{◌≡◌, ◌<◌, ◌^◌, [], length, slice_get, option_map, OnOk, OnErr};
ghost use Rattle.std.specs.List.{IsDistinct};
ghost use Rattle.std.specs.List.Sorted.{IsPermutation, IsSorted};
ghost use Rattle.std.specs.Str.{bytes_eq};
ghost use Rattle.std.specs.Ordering.{nat_cmp};
ghost use Rattle.std.specs.Cmp.Lexicographic.{slice_cmp};
ghost use Rattle.sequential_ends.specs.Rows.{rows_in, with_ordered};

use indexmap::IndexMap;
use std::alloc::{AllocError, Global};
use std::marker::Model;

/// Rows of words, each once and with an order of turns.
#[derive(Drop)]
pub(crate) struct Rows {
    rows: IndexMap<Vec<u64>, Vec<u8>>,
}

impl Model for Rows {
    ghost use Rattle.std.specs.Prelude.{ℕ, List, map};

    ghost Value = { List (List ℕ × List ℕ) };

    ghost view = { λ r. map (λ row. (row.0.items, row.1.items)) r.rows.entries };
}

impl Rows {
    /// No row.
    pub(crate) fn new(alloc: Global) -> Rows
        ensures { result ≡ [] }
    {
        Rows {
            rows: IndexMap::new(alloc),
        }
    }

    /// How many there are.
    pub(crate) fn len(&self) -> usize
        ensures count { result ≡ length self.now }
        ensures small { result < 2 ^ 63 }
    {
        self.rows.len()
    }

    /// The row of this number and its order, if there is one.
    pub(crate) fn get(&self, number: usize) -> Option<(&[u64], &[u8])>
        ensures { option_map (λ row. (row.0.now, row.1.now)) result ≡ slice_get self.now number }
    {
        let (row, order) = self.rows.get_index(number)?;
        Some((row, order))
    }

    /// Adds a row with its order behind the others, if the row isn't there.
    pub(crate) fn add(&mut self, row: Vec<u64>, order: Vec<u8>) -> Result<(), AllocError>
        ensures added { OnOk result (self.new ≡ with_ordered self.old (row.items, order.items)) }
        ensures refused { OnErr result (self.new ≡ self.old) }
    {
        if self.rows.contains_key(&row) {
            return Ok(());
        }
        self.rows.insert(row, order)?;
        Ok(())
    }

    /// Sorts the rows, by the first word in which two of them differ.
    pub(crate) fn sort(&mut self) -> Result<(), AllocError>
        ensures sorted { OnOk result (IsSorted (slice_cmp nat_cmp) (rows_in self.new)) }
        ensures once { OnOk result (IsDistinct bytes_eq (rows_in self.new)) }
        ensures same { OnOk result (IsPermutation self.old self.new) }
    {
        self.rows.sort_keys()
    }
}
