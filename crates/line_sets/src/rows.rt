//! Where the lines of each set lie: a row of tags and cells for each set.
ghost use Rattle.std.specs.Prelude.{◌≡◌, ◌<◌, ◌≤◌, [], get_or, length, replicate, slice_set, IfOk, IfSome, None};
ghost use Rattle.line_sets.specs.Order.{find};
ghost use Rattle.line_sets.specs.TaggedRows.{no_row, row_at, with_line, IsCut};
ghost use Rattle.line_sets.specs.Stored.{tags_of, AreRows, IsPlaceIn};

use crate::entries::Row;
use line_arena::Arena;
use line_arena::laws::looked_up;
use std::alloc::{AllocError, Global};
use std::marker::Model;

/// A row of tags and cells for each set, at most 16 each. Contracts see the list of rows, by set.
#[derive(Drop)]
pub struct Rows {
    rows: Vec<Row>,
    // The sets that had a line.
    sets: Vec<u32>,
    // Where each of these is among them.
    places: Vec<Option<u32>>,
}

impl Model for Rows {
    ghost use Rattle.std.specs.Prelude.{List, ℕ, vec_capacity};
    ghost use Rattle.line_sets.specs.declared.entries.Row.{Row};
    ghost use Rattle.line_sets.specs.TaggedRows.{HasRoom, IsSpread};

    ghost Value = { List Row };

    ghost view = { λ r. r.rows.items };

    ghost invariant = { λ r. IsSpread r.places.items r.sets.items r.rows.items
        × HasRoom r.places.items (vec_capacity r.sets) };
}

impl Rows {
    /// Empty rows of 1,048,576 sets at most. All memory is taken here.
    pub(crate) fn new(alloc: Global, sets: u32) -> Result<Rows, AllocError>
        requires { sets ≤ 1048576 }
        ensures { IfOk result (λ rows. rows ≡ replicate sets no_row) }
    {
        let rows = vec![in alloc; Row::new(); sets as usize]?;
        let of_rows = Vec::with_capacity(alloc, sets as usize)?;
        let mut places = Vec::with_capacity(alloc, sets as usize)?;
        for _ in 0..sets {
            places.push_reserved(None);
        }
        Ok(Rows {
            rows,
            sets: of_rows,
            places,
        })
    }

    /// The allocator.
    pub(crate) fn allocator(&self) -> Global {
        *self.rows.allocator()
    }

    /// Takes all lines out, as if no set had had one. The time grows with how many sets had one.
    pub(crate) fn clear(&mut self)
        ensures { self.new ≡ replicate (length self.old) no_row }
    {
        for at in 0..self.sets.len() {
            let set = self.sets[at];
            self.places[set as usize] = None;
            self.rows[set as usize] = Row::new();
        }
        self.sets.clear();
    }

    /// The place of a line in the row of its set.
    #[inline(always)]
    fn index_of_line<V>(&self, arena: &Arena<(u64, V)>, set: usize, line: u64) -> Option<usize>
        requires in_table { set < length self.now }
        requires many { length self.now ≡ length arena.now.lists }
        requires fits { AreRows self.now arena.now.lists }
        ensures { IsPlaceIn (row_at self.now set) (get_or arena.now.lists set []) line result }
    {
        looked_up::<(u64, V)>();
        let _lists = arena.lists();
        self.rows[set].index_of_line(arena, line)
    }

    /// The cell of a line in a set.
    #[inline(always)]
    pub(crate) fn cell_of_line<V>(
        &self,
        arena: &Arena<(u64, V)>,
        set: usize,
        line: u64,
    ) -> Option<u32>
        requires in_table { set < length self.now }
        requires many { length self.now ≡ length arena.now.lists }
        requires fits { AreRows self.now arena.now.lists }
        ensures { result ≡ find (tags_of (get_or arena.now.lists set [])) line }
    {
        match self.index_of_line(arena, set, line) {
            None => None,
            Some(at) => Some(self.rows[set].cells[at] as u32),
        }
    }

    /// Puts a line with its cell at the end of the row of its set.
    pub(crate) fn push(&mut self, set: usize, line: u64, cell: u32)
        requires in_table { set < length self.old }
        requires room { (row_at self.old set).count < 16 }
        requires cell { cell < 65536 }
        ensures { self.new ≡ slice_set self.old set (with_line line cell (row_at self.old set)) }
    {
        let Some(_) = self.places[set] else {
            self.places[set] = Some(self.sets.len() as u32);
            self.sets.push_reserved(set as u32);
            self.rows[set].push(line, cell);
            return;
        };
        self.rows[set].push(line, cell);
    }

    /// Takes a line out of the row of its set, if it is there, and gives its cell.
    #[inline(always)]
    pub(crate) fn take_line<V>(
        &mut self,
        arena: &Arena<(u64, V)>,
        set: usize,
        line: u64,
    ) -> Option<u32>
        requires in_table { set < length self.old }
        requires many { length self.old ≡ length arena.now.lists }
        requires fits { AreRows self.old arena.now.lists }
        ensures value { result ≡ find (tags_of (get_or arena.now.lists set [])) line }
        ensures absent { result ≡ None → self.new ≡ self.old }
        ensures cut { IfSome result (λ cell. IsCut self.old set cell self.new) }
    {
        let Some(at) = self.index_of_line(arena, set, line) else {
            return None;
        };
        let cell = self.rows[set].cells[at] as u32;
        self.rows[set].take_line_out(at);
        Some(cell)
    }
}
