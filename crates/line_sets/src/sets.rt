//! A table of sets of lines in order of use, whose memory is all taken when it is made.
ghost use Rattle.std.specs.Prelude.{◌≡◌, ◌<◌, ◌≤◌, IfOk, IsOk, IsTrue, length, OnErr, OnOk};
ghost use Rattle.std.specs.Prelude.{slice_get, None, Some, ◌++◌, ℕ};
ghost use Rattle.std.specs.List.{list_all};
ghost use Rattle.std.specs.Option.{option_copied};
ghost use Rattle.line_sets.specs.Order.{first_where, is_there, lines_passing, oldest, IsDistinct};
ghost use Rattle.line_sets.specs.Geometry.{IsGeometry};
ghost use Rattle.ranked_lines.specs.Rising.{all_but, sorted};
ghost use Rattle.line_sets.specs.SetTable.{all_listed, drop_line, empty_sets, has_place, has_room, look, put};
ghost use Rattle.line_sets.specs.SetTable.{put_within, set_at};

use crate::listed::{
    LineTest, Listed, count_if_listed, count_if_unlisted, line_numbers, number_of_line,
    update_set_count,
};
use crate::rows::Rows;
use line_arena::laws::{looked_up, taken_off};
use line_arena::{Arena, ArenaError, Cell};
use network::LineNo;
use ranked_lines::RankedLines;
use ranked_lines::laws::sorted_is_unique;
use ranked_lines::selection::{leave_number_out, nth_smallest_number};
use std::alloc::{AllocError, Global};
use std::marker::Model;

/// Sets of lines by number, each from its least recently used line to its most recently used one, with a value for
/// each line. A set has as many lines as it has ways, at most, and no line twice. Which set a line belongs to is the
/// caller's to say. Contracts see the ways and the list of sets.
#[derive(Drop)]
pub struct LineSets<V: Listed> {
    ways: usize,
    // How many values are listed.
    listed: usize,
    // How many values of each set aren't.
    unlisted: Vec<u8>,
    // Each set's lines and values, in order of use.
    arena: Arena<(u64, V)>,
    // Each set's cells of the arena, with the tags of their lines.
    rows: Rows,
    // The listed lines in rising order, if they are kept so.
    order: RankedLines,
}

impl<V: Listed> Model for LineSets<V> {
    ghost use Rattle.std.specs.Prelude.{◌≡◌, length};
    ghost use Rattle.line_sets.specs.SetTable.{Sets, all_listed};
    ghost use Rattle.ranked_lines.specs.Rising.{room_of, HasRoom, IsOrderOf};
    ghost use Rattle.line_sets.specs.Stored.{counts_without, sets_of, IsStored};

    ghost Value = { Sets V };

    ghost view = { λ table. record { ways = table.ways; sets = sets_of table.arena.lists } };

    // The counts and the order, if it is kept, are those of the listed lines. A kept order has room for all lines that
    // there may be, so it stays kept whatever line comes.
    ghost invariant = { λ table. IsStored table.ways table.arena table.rows
        × (table.listed ≡ length (all_listed V.is_listed (sets_of table.arena.lists)))
        × IsOrderOf table.order (all_listed V.is_listed (sets_of table.arena.lists))
        × HasRoom table.arena.cells (room_of table.order)
        × (table.unlisted.items ≡ counts_without V.is_listed (sets_of table.arena.lists)) };
}

impl<V: Copy + Listed> LineSets<V> {
    /// As many sets without lines, each with room for as many lines as there are ways. All memory is taken here.
    pub fn new(alloc: Global, sets: u32, ways: u32) -> Result<LineSets<V>, AllocError>
        requires { IsGeometry sets ways }
        ensures { IfOk result (λ table. table ≡ empty_sets sets ways) }
    {
        let rows = Rows::new(alloc, sets)?;
        let unlisted = vec![in alloc; 0; sets as usize]?;
        match Arena::new(alloc, sets * ways, sets) {
            Ok(arena) => Ok(LineSets {
                ways: ways as usize,
                listed: 0,
                unlisted,
                arena,
                rows,
                order: RankedLines::none(),
            }),
            Err(ArenaError::NoMemory) => Err(AllocError),
            Err(ArenaError::TooLarge) => unreachable!(),
        }
    }

    /// Takes all lines out, and pauses the rising order. No memory is taken or given back. The time grows with how many
    /// sets had a line since the table was made or cleared, and with the most lines that it had at once; and a byte is
    /// written for each set.
    pub fn clear(&mut self)
        ensures { self.new ≡ empty_sets (length self.old.sets) self.old.ways }
    {
        let _lists = self.arena.lists();
        self.arena.clear();
        self.rows.clear();
        self.listed = 0;
        self.unlisted.fill(0);
        self.order.pause();
    }

    /// A table without lines again, with so many sets and ways. If it has that many, it is cleared, which takes no
    /// memory; else it is made anew. Where memory for that is refused nothing changes.
    pub fn reopen(&mut self, sets: u32, ways: u32) -> Result<(), AllocError>
        requires { IsGeometry sets ways }
        ensures opened { OnOk result (self.new ≡ empty_sets sets ways) }
        ensures refused { OnErr result (self.new ≡ self.old) }
        ensures kept { length self.old.sets ≡ sets → self.old.ways ≡ ways → IsOk result }
    {
        if self.sets() == sets as usize && self.ways == ways as usize {
            self.clear();
            return Ok(());
        }
        *self = LineSets::new(self.rows.allocator(), sets, ways)?;
        Ok(())
    }

    /// The number of sets.
    #[inline(always)]
    pub fn sets(&self) -> usize
        ensures { result ≡ length self.now.sets }
    {
        self.arena.lists() as usize
    }

    /// What is kept of a line in a set.
    #[inline(always)]
    pub fn find(&self, set: usize, line: u64) -> Option<&V>
        requires { set < length self.now.sets }
        ensures { option_copied result ≡ look self.now.sets set line }
    {
        looked_up::<(u64, V)>();
        let _lists = self.arena.lists();
        let Some(cell) = self.rows.cell_of_line(&self.arena, set, line) else {
            return None;
        };
        Some(&self.arena.get(Cell(cell)).1)
    }

    /// Whether a set has fewer lines than ways.
    #[inline(always)]
    pub fn has_room(&self, set: usize) -> bool
        requires { set < length self.now.sets }
        ensures { result ≡ has_room self.now set }
    {
        (self.arena.len(set as u32) as usize) < self.ways
    }

    /// The least recently used line of a set, if the set has a line. It never has more than ways.
    pub fn oldest(&self, set: usize) -> Option<u64>
        requires { set < length self.now.sets }
        ensures line { result ≡ oldest (set_at self.now.sets set) }
        ensures within { length (set_at self.now.sets set) ≤ self.now.ways }
    {
        looked_up::<(u64, V)>();
        let _lists = self.arena.lists();
        let Some(cell) = self.arena.front(set as u32) else {
            return None;
        };
        Some(self.arena.get(cell).0)
    }

    /// The least recently used line of a set whose value passes a test, if one does.
    pub fn first_where<T: LineTest<V>>(&self, set: usize, test: &T) -> Option<u64>
        requires { set < length self.now.sets }
        ensures { result ≡ first_where (T.passes test.now) (set_at self.now.sets set) }
    {
        looked_up::<(u64, V)>();
        let _lists = self.arena.lists();
        let count = self.arena.len(set as u32);
        let mut next = self.arena.front(set as u32);
        for _ in 0..count {
            let Some(cell) = next else {
                return None;
            };
            let entry = self.arena.get(cell);
            if test.passes(&entry.1) {
                return Some(entry.0);
            }
            next = self.arena.next(cell);
        }
        None
    }

    /// Puts a line that is in the set, or has room there, with this value, and makes it the most recently used one.
    #[inline(always)]
    pub fn insert(&mut self, set: usize, line: u64, value: V)
        requires in_table { set < length self.old.sets }
        requires way { IsTrue (has_place self.old set line) }
        ensures { self.new ≡ record self.old { sets = put self.old.sets set line value } }
    {
        looked_up::<(u64, V)>();
        taken_off::<(u64, V)>();
        let _lists = self.arena.lists();
        let Some(cell) = self.rows.cell_of_line(&self.arena, set, line) else {
            self.add(set, line, value);
            return;
        };
        let old = &self.arena.get(Cell(cell)).1;
        let before = count_if_listed(old);
        let after = count_if_listed(&value);
        self.listed = self.listed - before + after;
        update_set_count(
            &mut self.unlisted,
            set,
            count_if_unlisted(old),
            count_if_unlisted(&value),
        );
        self.order.change(line, before, after);
        *self.arena.get_mut(Cell(cell)) = (line, value);
        if self.arena.next(Cell(cell)).is_none() {
            return;
        }
        self.arena.move_to_back(set as u32, Cell(cell));
    }

    /// Puts a line that isn't in the set, but has room there, with this value, as the most recently used one. It is
    /// not looked for.
    #[inline(always)]
    pub fn add(&mut self, set: usize, line: u64, value: V)
        requires in_table { set < length self.old.sets }
        requires absent { look self.old.sets set line ≡ None }
        requires way { IsTrue (has_place self.old set line) }
        ensures { self.new ≡ record self.old { sets = put self.old.sets set line value } }
    {
        let pushed = self.arena.push_back(set as u32, (line, value));
        let cell = pushed.unwrap();
        let _lists = self.arena.lists();
        self.rows.push(set, line, cell.0);
        let after = count_if_listed(&value);
        self.listed += after;
        update_set_count(&mut self.unlisted, set, 0, count_if_unlisted(&value));
        self.order.change(line, 0, after);
    }

    /// Changes what is kept of a line that is in the set, and keeps the order of use.
    #[inline(always)]
    pub fn replace(&mut self, set: usize, line: u64, value: V)
        requires in_table { set < length self.old.sets }
        requires there { IsTrue (is_there (set_at self.old.sets set) line) }
        ensures { self.new ≡ record self.old { sets = put_within self.old.sets set line value } }
    {
        looked_up::<(u64, V)>();
        let _lists = self.arena.lists();
        if let Some(cell) = self.rows.cell_of_line(&self.arena, set, line) {
            let old = &self.arena.get(Cell(cell)).1;
            let before = count_if_listed(old);
            let after = count_if_listed(&value);
            self.listed = self.listed - before + after;
            update_set_count(
                &mut self.unlisted,
                set,
                count_if_unlisted(old),
                count_if_unlisted(&value),
            );
            self.order.change(line, before, after);
            *self.arena.get_mut(Cell(cell)) = (line, value);
        }
    }

    /// Takes a line out of its set and gives what was kept of it, or nothing if it isn't there; nothing changes then.
    #[inline(always)]
    pub fn remove(&mut self, set: usize, line: u64) -> Option<V>
        requires { set < length self.old.sets }
        ensures value { result ≡ look self.old.sets set line }
        ensures absent { result ≡ None → self.new ≡ self.old }
        ensures after { self.new ≡ record self.old { sets = drop_line self.old.sets set line } }
    {
        looked_up::<(u64, V)>();
        taken_off::<(u64, V)>();
        let _lists = self.arena.lists();
        let Some(cell) = self.rows.take_line(&self.arena, set, line) else {
            return None;
        };
        let (_line, value) = self.arena.unlink(Cell(cell));
        let before = count_if_listed(&value);
        self.listed -= before;
        update_set_count(&mut self.unlisted, set, count_if_unlisted(&value), 0);
        self.order.change(line, before, 0);
        Some(value)
    }

    /// How many lines of all sets have a value that is listed. No set has a line twice.
    pub fn count_listed_lines(&self) -> usize
        ensures count { result ≡ length (all_listed V.is_listed self.now.sets) }
        ensures once { (set : ℕ) → IsDistinct (set_at self.now.sets set) }
    {
        self.listed
    }

    /// Whether all values of a set are listed.
    #[inline(always)]
    pub fn is_all_listed(&self, set: usize) -> bool
        requires { set < length self.now.sets }
        ensures { result ≡ list_all (λ p. V.is_listed p.1) (set_at self.now.sets set) }
    {
        self.unlisted[set] == 0
    }

    /// The line that comes after so many others, once the lines of all sets whose values are listed, but that one, are
    /// in rising order.
    pub fn nth_listed(&self, but: Option<LineNo>, at: usize) -> Result<LineNo, AllocError>
        requires { at < length (all_but but (all_listed V.is_listed self.now.sets)) }
        ensures { IfOk result (λ line. slice_get (sorted (all_but but
            (all_listed V.is_listed self.now.sets))) at ≡ Some line) }
    {
        let but = number_of_line(but);
        if let Some(line) = self.order.nth(&but, at) {
            return Ok(LineNo(line));
        }
        let mut numbers = self.gather_listed_lines()?;
        leave_number_out(&mut numbers, &but);
        Ok(LineNo(nth_smallest_number(&mut numbers, at)))
    }

    /// Keeps the listed lines in rising order from now on, in blocks of at most 128. `nth_listed` then goes over the
    /// blocks, searches at most two of them and takes no memory. All memory is taken here: 1,032 bytes for each 32
    /// lines that there may be, and 2,064 bytes more; and a list of the lines for the time of the call. A line that
    /// comes to the listed ones or leaves them moves at most 1,024 bytes. If a block is split, joined with the next
    /// one or left empty, the blocks behind it are moved, too. Of blocks before others that is at most once in 32
    /// such changes, on the whole. Where the memory is refused the order is kept or not kept as it was before the
    /// call. No other answer depends on it.
    pub fn keep_order(&mut self) -> Result<(), AllocError>
        ensures { self.new ≡ self.old }
    {
        if self.resume_order()? {
            return Ok(());
        }
        let numbers = self.listed_line_numbers()?;
        let most = self.sets() * self.ways;
        let order = RankedLines::of(self.rows.allocator(), &numbers, most)?;
        self.order = order;
        Ok(())
    }

    // The same in memory that stayed; false where that isn't enough, and then nothing has changed.
    fn resume_order(&mut self) -> Result<bool, AllocError>
        ensures { self.new ≡ self.old }
    {
        let lines = self.gather_listed_lines()?;
        let most = self.sets() * self.ways;
        Ok(self.order.resume(&lines, most))
    }

    /// Keeps the listed lines in rising order no longer. The memory for that stays: the next `keep_order` takes only
    /// that for the list of lines.
    pub fn pause_order(&mut self)
        ensures { self.new ≡ self.old }
    {
        self.order.pause();
    }

    /// Keeps the listed lines in rising order no longer, and gives the memory for that back.
    pub fn forget_order(&mut self)
        ensures { self.new ≡ self.old }
    {
        self.order = RankedLines::none();
    }

    /// The lines of all sets whose values are listed, rising.
    pub fn lines(&self) -> Result<Vec<LineNo>, AllocError>
        ensures { IfOk result (λ lines.
            lines.items ≡ sorted (all_listed V.is_listed self.now.sets)) }
    {
        let numbers = self.listed_line_numbers()?;
        line_numbers(numbers)
    }

    // The numbers of these lines, rising.
    fn listed_line_numbers(&self) -> Result<Vec<u64>, AllocError>
        ensures { IfOk result (λ lines.
            lines.items ≡ sorted (all_listed V.is_listed self.now.sets)) }
    {
        sorted_is_unique();
        let mut lines = self.gather_listed_lines()?;
        lines.sort_unstable();
        Ok(lines)
    }

    // The listed lines of all sets, set by set. The sets after the last listed line aren't looked at.
    fn gather_listed_lines(&self) -> Result<Vec<u64>, AllocError>
        ensures { IfOk result (λ lines. lines.items ≡ all_listed V.is_listed self.now.sets) }
    {
        let mut lines = Vec::new(self.rows.allocator());
        for set in 0..self.sets() {
            if lines.len() == self.listed {
                return Ok(lines);
            }
            self.push_listed_lines_of_set(&mut lines, set)?;
        }
        Ok(lines)
    }

    // Adds the listed lines of a set, in their order.
    fn push_listed_lines_of_set(&self, lines: &mut Vec<u64>, set: usize) -> Result<(), AllocError>
        requires { set < length self.now.sets }
        ensures { OnOk result (lines.new.items ≡ lines.old.items ++
            lines_passing V.is_listed (set_at self.now.sets set)) }
    {
        looked_up::<(u64, V)>();
        let _lists = self.arena.lists();
        let count = self.arena.len(set as u32);
        let mut next = self.arena.front(set as u32);
        for _ in 0..count {
            let Some(cell) = next else {
                return Ok(());
            };
            let entry = self.arena.get(cell);
            if entry.1.is_listed() {
                lines.push(entry.0)?;
            }
            next = self.arena.next(cell);
        }
        Ok(())
    }
}
