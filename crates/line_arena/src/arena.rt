//! The arena as callers see it.
ghost use Rattle.std.specs.Prelude.{◌≡◌, ◌+◌, ◌^◌, ◌<◌, ◌≤◌, ◌⊎◌, ◌↔◌, [], ◌∷◌, ◌++◌, map, length, get_or, slice_set};
ghost use Rattle.std.specs.Prelude.{replicate, IfOk, IfErr, IsErr, IsSome, IfSome, is_some, Some, None, Err};
ghost use Rattle.std.specs.Borrow.{sem};
ghost use Rattle.line_arena.specs.CellLists.{look_up, without, next_cell, first_cell, append_to};
ghost use Rattle.line_arena.specs.ErrorNumbers.{error_number};
ghost use Rattle.line_arena.specs.Arenas.{lists_of, pushed, unlinked, free_cells, absent_cells, IsOnce, AreCells};

use crate::chains::Chains;
use std::alloc::Global;
use std::marker::Model;

/// A cell of an arena, by its number, which is below the number of cells. Contracts see the number.
#[derive(Clone, Copy, Debug, PartialEq, Eq)]
pub struct Cell(pub u32);

impl Model for Cell {
    ghost use Rattle.std.specs.Prelude.{ℕ};

    ghost Value = { ℕ };

    ghost view = { λ cell. cell.0 };

    ghost inverse = { λ n. record { 0 = n } };
}

/// Why an arena was not made.
#[derive(Clone, Copy, Debug, PartialEq, Eq)]
pub enum ArenaError {
    /// 1: allocation failed.
    NoMemory,
    /// 2: more cells than 16,777,216, or more lists than 1,048,576.
    TooLarge,
}

impl ArenaError {
    /// The error's number.
    pub fn number(self) -> u8
        ensures { result ≡ error_number self }
    {
        match self {
            ArenaError::NoMemory => 1,
            ArenaError::TooLarge => 2,
        }
    }
}

/// Lists of values in one block of cells. A cell is free or on exactly one list. The arena allocates its memory when
/// it is made, and no call after that allocates any. Dropping it drops the values on its lists.
///
/// Contracts see the lists, each of pairs of a cell and its value, and the number of cells.
pub struct Arena<T> {
    chains: Chains<T>,
}

impl<T> Model for Arena<T> {
    ghost use Rattle.line_arena.specs.Arenas.{Lists, lists_code, model, IsArena};

    ghost Value = { Lists T };

    ghost coded = { lists_code T.code };

    ghost view = { λ a. model a.chains };

    ghost invariant = { λ a. IsArena a.chains };
}

impl<T> Arena<T> {
    ghost use Rattle.line_arena.specs.ArenaLends.{lends_value};

    /// An arena of this many free cells and empty lists. No cell is written.
    ///
    /// TooLarge exactly if there are more than 16,777,216 cells or 1,048,576 lists, and NoMemory if allocation failed.
    pub fn new(alloc: Global, cells: u32, lists: u32) -> Result<Arena<T>, ArenaError>
        ensures made { IfOk result (λ a. a ≡ lists_of (replicate lists []) cells) }
        ensures large { (result ≡ Err ArenaError.TooLarge) ↔ ((2 ^ 24 < cells) ⊎ (2 ^ 20 < lists)) }
    {
        if cells > 16_777_216 {
            return Err(ArenaError::TooLarge);
        }
        if lists > 1_048_576 {
            return Err(ArenaError::TooLarge);
        }
        match Chains::new(alloc, cells, lists) {
            Ok(chains) => Ok(Arena { chains }),
            Err(_) => Err(ArenaError::NoMemory),
        }
    }

    /// Puts a value into a free cell at the end of a list. The value comes back as Err exactly if no cell is free.
    #[inline(always)]
    pub fn push_back(&mut self, list: u32, item: T) -> Result<Cell, T>
        requires { list < length self.old.lists }
        ensures after { IfOk result (λ cell. self.new ≡ pushed list (cell, item) self.old) }
        ensures fresh { IfOk result (λ cell. look_up cell self.old.lists ≡ None) }
        ensures refused { IfErr result (λ x. (x ≡ item) × (self.new ≡ self.old)) }
        ensures full { IsErr result ↔ (free_cells self.old ≡ 0) }
    {
        match self.chains.take_free_cell() {
            None => Err(item),
            Some(cell) => {
                let before = self.chains.fill(list, cell, item);
                let None = before else { unreachable!() };
                Ok(Cell(cell))
            }
        }
    }

    /// Takes a cell off its list and gives its value. The cell is free then.
    #[inline(always)]
    pub fn unlink(&mut self, cell: Cell) -> T
        requires { IsSome (look_up cell self.old.lists) }
        ensures value { look_up cell self.old.lists ≡ Some result }
        ensures after { self.new ≡ unlinked cell self.old }
    {
        self.chains.detach(cell.0);
        self.chains.release(cell.0).unwrap()
    }

    /// Takes a cell off its list, gives its value, and puts it with another one at the end of a list, which may be its
    /// own. Which cells are free doesn't change.
    #[inline(always)]
    pub fn refill(&mut self, list: u32, cell: Cell, item: T) -> T
        requires list { list < length self.old.lists }
        requires cell { IsSome (look_up cell self.old.lists) }
        ensures value { look_up cell self.old.lists ≡ Some result }
        ensures after { self.new ≡ pushed list (cell, item) (unlinked cell self.old) }
    {
        self.chains.detach(cell.0);
        self.chains.fill(list, cell.0, item).unwrap()
    }

    /// Moves a cell with its value to the end of a list, which may be its own. The value stays where it lies.
    #[inline(always)]
    pub fn move_to_back(&mut self, list: u32, cell: Cell)
        requires list { list < length self.old.lists }
        requires cell { IsSome (look_up cell self.old.lists) }
        ensures { IfSome (look_up cell self.old.lists) (λ item.
            self.new ≡ pushed list (cell, item) (unlinked cell self.old)) }
    {
        self.chains.detach(cell.0);
        self.chains.attach(list, cell.0);
    }

    /// Takes all cells off their lists and drops their values, so that all lists are empty and all cells free. Its
    /// time is in proportion to the most cells that were on lists at once since the arena was made or cleared.
    pub fn clear(&mut self)
    where
        T: Drop,
        ensures { self.new ≡ lists_of (replicate (length self.old.lists) []) self.old.cells }
    {
        self.chains.empty_lists();
    }

    /// The first cell of a list, if it has one.
    #[inline(always)]
    pub fn front(&self, list: u32) -> Option<Cell>
        requires { list < length self.now.lists }
        ensures { result ≡ first_cell (get_or self.now.lists list []) }
    {
        if self.chains.count(list) == 0 {
            return None;
        }
        Some(Cell(self.chains.first(list)))
    }

    /// The cell after this one on its list, if this one isn't the last.
    #[inline(always)]
    pub fn next(&self, cell: Cell) -> Option<Cell>
        requires { IsSome (look_up cell self.now.lists) }
        ensures { result ≡ next_cell cell self.now.lists }
    {
        let next = self.chains.next(cell.0);
        if next >= self.chains.capacity {
            return None;
        }
        Some(Cell(next))
    }

    /// The value of a cell.
    #[inline(always)]
    pub fn get(&self, cell: Cell) -> &T
        requires { IsSome (look_up cell self.now.lists) }
        ensures { look_up cell self.now.lists ≡ Some result.now }
    {
        self.chains.value(cell.0)
    }

    /// The value of a cell, to write to.
    #[inline(always)]
    pub fn get_mut(&mut self, cell: Cell) -> &mut T
        requires { IsSome (look_up cell self.old.lists) }
        ensures* writes_back { sem 𝓛 (lends_value T.row self.entry cell result) }
        ensures value { look_up cell self.old.lists ≡ Some result.now }
    {
        self.chains.value_mut(cell.0)
    }

    /// How many cells a list has.
    #[inline(always)]
    pub fn len(&self, list: u32) -> u32
        requires { list < length self.now.lists }
        ensures { result ≡ length (get_or self.now.lists list []) }
    {
        self.chains.count(list)
    }

    /// Whether a cell is on a list.
    pub fn holds(&self, cell: Cell) -> bool
        ensures { result ≡ is_some (look_up cell self.now.lists) }
    {
        if cell.0 >= self.chains.used {
            return false;
        }
        self.chains.is_on_list(cell.0)
    }

    /// How many cells are free: those that are on no list.
    pub fn free(&self) -> u32
        ensures value { result ≡ free_cells self.now }
        ensures nowhere { result ≡ absent_cells self.now }
    {
        self.chains.free()
    }

    /// How many lists there are. No cell is on them twice, and each is one of the arena's.
    pub fn lists(&self) -> u32
        ensures value { result ≡ length self.now.lists }
        ensures once { IsOnce self.now.lists }
        ensures cells { AreCells self.now }
    {
        self.chains.lists()
    }
}

impl<T: Drop> Drop for Arena<T> {
    fn drop(self) {
        let Arena { chains } = self;
        chains.clear();
    }
}
