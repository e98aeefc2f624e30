//! Values in their order, on the arena.
ghost use Rattle.std.specs.Prelude.{◌≡◌, ℕ, ◌+◌, ◌-◌, ◌<◌, ◌≤◌, ◌++◌, ◌∷◌, [], nat_eq, drop, length, remove};
ghost use Rattle.std.specs.Prelude.{IfOk, Some, slice_get};
ghost use Rattle.line_arena.specs.CellLists.{first_cell};
ghost use Rattle.inbox.specs.Queues.{IsAfter, IsIn, IsQueue, values_of};

use line_arena::laws::{appended, looked_up, taken_off};
use line_arena::{Arena, ArenaError, Cell};
use std::alloc::{AllocError, Global};
use std::marker::Model;

/// How many values a queue has places for.
pub(crate) const PLACES: u32 = 256;

/// Up to 256 values, the oldest first, by docs/SEATS.md. A cell names one of them while it is there. A queue allocates
/// all its memory when it is made. Contracts see pairs of a cell and its value.
#[derive(Drop)]
pub struct Queue<T> {
    // the values, on its only list
    list: Arena<T>,
}

impl<T> Model for Queue<T> {
    ghost use Rattle.std.specs.Prelude.{List, ℕ};
    ghost use Rattle.std.specs.Coded.{coded_list, coded×, coded_ℕ};
    ghost use Rattle.inbox.specs.Queues.{IsQueue, cells_of};

    ghost Value = { List (ℕ × T) };

    ghost coded = { coded_list (coded× coded_ℕ T.code) };

    ghost view = { λ q. cells_of q.list };

    ghost invariant = { λ q. IsQueue q.list };
}

impl<T> Queue<T> {
    /// A queue without a value, with the memory for 256.
    pub fn new(alloc: Global) -> Result<Queue<T>, AllocError>
        ensures { IfOk result (λ q. q ≡ []) }
    {
        match Arena::new(alloc, PLACES, 1) {
            Ok(list) => Ok(Queue { list }),
            Err(ArenaError::NoMemory) => Err(AllocError),
            Err(ArenaError::TooLarge) => unreachable!(),
        }
    }

    /// How many values there are, up to 256.
    pub fn len(&self) -> u32
        ensures value { result ≡ length (values_of self.now) }
        ensures within { length (values_of self.now) ≤ 256 }
    {
        self.list.len(0)
    }

    /// Whether there is no value.
    pub fn is_empty(&self) -> bool
        ensures { result ≡ nat_eq (length (values_of self.now)) 0 }
    {
        self.list.len(0) == 0
    }

    /// How many more values there are places for, of 256.
    pub fn places(&self) -> u32
        ensures value { result ≡ 256 - length (values_of self.now) }
        ensures within { length (values_of self.now) ≤ 256 }
    {
        PLACES - self.list.len(0)
    }

    /// The cell of the oldest value, if there is one.
    pub fn front(&self) -> Option<Cell>
        ensures { result ≡ first_cell self.now }
    {
        self.list.front(0)
    }

    /// The cell after this one, if this one isn't the last.
    pub fn next(&self, cell: Cell) -> Option<Cell>
        requires { IsIn cell self.now }
        ensures { (k : ℕ) → IsAfter k cell self.now → result ≡ first_cell (drop (k + 1) self.now) }
    {
        looked_up::<T>();
        let _lists = self.list.lists();
        self.list.next(cell)
    }

    /// The value of a cell.
    pub fn get(&self, cell: Cell) -> &T
        requires { IsIn cell self.now }
        ensures here { (k : ℕ) → IsAfter k cell self.now →
            drop k self.now ≡ (cell, result.now) ∷ drop (k + 1) self.now }
        ensures value { (k : ℕ) → IsAfter k cell self.now →
            slice_get (values_of self.now) k ≡ Some result.now }
    {
        looked_up::<T>();
        let _lists = self.list.lists();
        self.list.get(cell)
    }

    /// Puts a value at the end, if there is a place.
    pub fn push(&mut self, value: T)
        requires { length (values_of self.old) < 256 }
        ensures { values_of self.new ≡ values_of self.old ++ value ∷ [] }
    {
        appended::<T>();
        let pushed = self.list.push_back(0, value);
        let _cell = pushed.unwrap();
    }

    /// Takes the value of a cell out. The others keep their order.
    pub fn take(&mut self, cell: Cell) -> T
        requires { IsIn cell self.old }
        ensures value { (k : ℕ) → IsAfter k cell self.old →
            slice_get (values_of self.old) k ≡ Some result }
        ensures others { (k : ℕ) → IsAfter k cell self.old →
            values_of self.new ≡ remove (values_of self.old) k }
    {
        looked_up::<T>();
        taken_off::<T>();
        let _lists = self.list.lists();
        self.list.unlink(cell)
    }
}
