//! A private cache. All memory for its copies is allocated when it is made.
ghost use Rattle.std.specs.Prelude.{◌≡◌, ◌≤◌, ◌<◌, length, IfOk, IfSome, IsSome, IsTrue};
ghost use Rattle.std.specs.Prelude.{◌+◌, if◌then◌else◌, is_some, not, slice_get, true, IsOk, OnErr, OnOk};
ghost use Rattle.std.specs.Prelude.{None, Option, Some, ℕ};
ghost use Rattle.std.specs.Option.{option_copied};
ghost use Rattle.line_sets.specs.Geometry.{IsGeometry};
ghost use Rattle.ranked_lines.specs.Rising.{sorted};
ghost use Rattle.line_sets.specs.SetTable.{all_listed, empty_sets, has_room};
ghost use Rattle.private_cache.specs.CopyTable.{is_pinned};
ghost use Rattle.private_cache.specs.FreeLines.{free_lines, has_pinned};

use crate::line_copy::{CopyState, LineCopy};
use line_sets::LineSets;
use network::{LineNo, TimedLine, remainder};
use std::alloc::{AllocError, Global};
use std::marker::Model;

/// The shape of a cache.
#[derive(Clone, Copy, Debug, PartialEq, Eq)]
pub struct Geometry {
    /// The number of sets, 1 to 1,024.
    pub sets: u32,
    /// How many ways each set has, 1 to 16.
    pub ways: u32,
}

/// Why a call did nothing.
#[derive(Clone, Copy, Debug, PartialEq, Eq)]
pub enum CacheError {
    /// 1: there is no copy of the line, and its set is full.
    NoRoom,
    /// 2: there is no copy of the line.
    NotHere,
    /// 3: the line is pinned by the open operation.
    Pinned,
}

impl CacheError {
    ghost use Rattle.std.specs.Prelude.{◌≡◌};

    /// The error's number.
    pub fn number(self) -> u8
        ensures no_room { self ≡ CacheError.NoRoom → result ≡ 1 }
        ensures not_here { self ≡ CacheError.NotHere → result ≡ 2 }
        ensures pinned { self ≡ CacheError.Pinned → result ≡ 3 }
    {
        match self {
            CacheError::NoRoom => 1,
            CacheError::NotHere => 2,
            CacheError::Pinned => 3,
        }
    }
}

/// The copies of lines that a core has, by set: a line belongs to the set whose number is the line's, modulo the
/// number of sets. Contracts see the ways and the sets, each from the least to the most recently used copy.
#[derive(Drop)]
pub struct Cache {
    table: LineSets<LineCopy>,
}

impl Model for Cache {
    ghost use Rattle.line_sets.specs.SetTable.{Sets};
    ghost use Rattle.private_cache.specs.declared.line_copy.LineCopy.{LineCopy};
    ghost use Rattle.private_cache.specs.OwnSets.{IsSound};

    ghost Value = { Sets LineCopy };

    ghost view = { λ cache. cache.table };

    ghost invariant = { λ cache. IsSound cache.table };
}

impl Cache {
    ghost use Rattle.private_cache.specs.CopyTable.{copy_changed, copy_of, downgraded, evicted, filled};
    ghost use Rattle.private_cache.specs.CopyTable.{place_for, renewed, set_of, upgraded, victim_for, with_changed};
    ghost use Rattle.private_cache.specs.CopyTable.{with_used, without_copy};

    /// A cache without copies. All memory is allocated here, for all the copies that it can have.
    pub fn new(alloc: Global, geometry: Geometry) -> Result<Cache, AllocError>
        requires { IsGeometry geometry.sets geometry.ways }
        ensures { IfOk result (λ cache. cache ≡ empty_sets geometry.sets geometry.ways) }
    {
        let table = LineSets::new(alloc, geometry.sets, geometry.ways)?;
        Ok(Cache { table })
    }

    /// Makes it a cache of this shape without copies. If it already has the shape, the call allocates nothing, and
    /// takes time in proportion to the copies that it had; otherwise the call allocates the cache anew. If an
    /// allocation fails, nothing changes.
    pub fn reopen(&mut self, geometry: Geometry) -> Result<(), AllocError>
        requires { IsGeometry geometry.sets geometry.ways }
        ensures opened { OnOk result (self.new ≡ empty_sets geometry.sets geometry.ways) }
        ensures refused { OnErr result (self.new ≡ self.old) }
        ensures kept { length self.old.sets ≡ geometry.sets → self.old.ways ≡ geometry.ways →
            IsOk result }
    {
        self.table.reopen(geometry.sets, geometry.ways)
    }

    // The set that a line belongs to.
    #[inline(always)]
    fn set_of(&self, line: LineNo) -> usize
        ensures set { result ≡ set_of self.now line }
        ensures below { result < length self.now.sets }
    {
        remainder(line.0, self.table.sets() as u64) as usize
    }

    /// The copy of a line.
    #[inline(always)]
    pub fn find(&self, line: LineNo) -> Option<&LineCopy>
        ensures { option_copied result ≡ copy_of self.now line }
    {
        self.table.find(self.set_of(line), line.0)
    }

    /// Whether the set of a line has room for one more copy.
    #[inline(always)]
    pub fn has_room(&self, line: LineNo) -> bool
        ensures { result ≡ has_room self.now (set_of self.now line) }
    {
        self.table.has_room(self.set_of(line))
    }

    /// Whether there is a copy of the line, or room for one in its set.
    #[inline(always)]
    pub fn place(&self, line: LineNo) -> bool
        ensures { result ≡ place_for self.now line }
    {
        self.find(line).is_some() || self.has_room(line)
    }

    /// Takes in a line that arrives, not written yet and now the most recently used of its set. NoRoom exactly when
    /// there is no place for it.
    pub fn fill(
        &mut self,
        line: LineNo,
        state: CopyState,
        timed: TimedLine,
    ) -> Result<(), CacheError>
        ensures { (result, self.new) ≡ filled self.old line state timed (place_for self.old line) }
    {
        if !self.place(line) {
            return Err(CacheError::NoRoom);
        }
        self.put(line, LineCopy::arrived(state, timed));
        Ok(())
    }

    /// Leases the copy of a line up to a time. NotHere exactly when there is no copy.
    pub fn renew(&mut self, line: LineNo, rts: u64) -> Result<(), CacheError>
        ensures { (result, self.new) ≡ copy_changed self.old line (renewed rts)
            (copy_of self.old line) }
    {
        let Some(copy) = self.find(line).copied() else {
            return Err(CacheError::NotHere);
        };
        self.change(line, copy.renewed(rts));
        Ok(())
    }

    /// Makes the copy of a line Exclusive, not written yet, which others may read up to a time. NotHere exactly when
    /// there is no copy.
    pub fn upgrade(&mut self, line: LineNo, rts: u64) -> Result<(), CacheError>
        ensures { (result, self.new) ≡ copy_changed self.old line (upgraded rts)
            (copy_of self.old line) }
    {
        let Some(copy) = self.find(line).copied() else {
            return Err(CacheError::NotHere);
        };
        self.change(line, copy.upgraded(rts));
        Ok(())
    }

    /// Makes the copy of a line Shared, leased up to a time. NotHere exactly when there is no copy.
    pub fn downgrade(&mut self, line: LineNo, rts: u64) -> Result<(), CacheError>
        ensures { (result, self.new) ≡ copy_changed self.old line (downgraded rts)
            (copy_of self.old line) }
    {
        let Some(copy) = self.find(line).copied() else {
            return Err(CacheError::NotHere);
        };
        self.change(line, copy.downgraded(rts));
        Ok(())
    }

    /// Puts a copy of a line that has a copy, or room for one, and makes it the most recently used of its set.
    #[inline(always)]
    pub fn put(&mut self, line: LineNo, copy: LineCopy)
        requires { IsTrue (place_for self.old line) }
        ensures { self.new ≡ with_used self.old line copy }
    {
        let set = self.set_of(line);
        self.table.insert(set, line.0, copy);
    }

    /// Puts a copy of a line that has none, but room for one, and makes it the most recently used of its set. The line
    /// is not looked for.
    #[inline(always)]
    pub fn add(&mut self, line: LineNo, copy: LineCopy)
        requires absent { copy_of self.old line ≡ None }
        requires place { IsTrue (place_for self.old line) }
        ensures after { self.new ≡ with_used self.old line copy }
        ensures there { copy_of self.new line ≡ Some copy }
    {
        let set = self.set_of(line);
        self.table.add(set, line.0, copy);
    }

    /// Changes the copy of a line that has one, and keeps the order of use.
    #[inline(always)]
    pub fn change(&mut self, line: LineNo, copy: LineCopy)
        requires { IsSome (copy_of self.old line) }
        ensures { self.new ≡ with_changed self.old line copy }
    {
        let set = self.set_of(line);
        self.table.replace(set, line.0, copy);
    }

    /// Takes out the copy of a line and gives it. NotHere exactly when there is no copy; else Pinned exactly when the
    /// line is the pinned one.
    #[inline(always)]
    pub fn evict(&mut self, line: LineNo, pinned: Option<LineNo>) -> Result<LineCopy, CacheError>
        ensures { (result, self.new) ≡ evicted self.old line pinned (copy_of self.old line) }
    {
        if pinned == Some(line) {
            if self.find(line).is_none() {
                return Err(CacheError::NotHere);
            }
            return Err(CacheError::Pinned);
        }
        let set = self.set_of(line);
        match self.table.remove(set, line.0) {
            Some(copy) => Ok(copy),
            None => Err(CacheError::NotHere),
        }
    }

    /// The copy to evict to make room for a line: the least recently used one of its set, exactly when there is no
    /// place for the line.
    pub fn victim(&self, line: LineNo) -> Option<LineNo>
        ensures line { result ≡ victim_for self.now line }
        ensures full { is_some result ≡ not (place_for self.now line) }
        ensures there { IfSome result (λ victim. IsSome (copy_of self.now victim)) }
        ensures makes_place { IfSome result (λ victim. IsTrue (place_for (without_copy self.now
            victim) line)) }
    {
        if self.place(line) {
            return None;
        }
        let oldest = self.table.oldest(self.set_of(line))?;
        Some(LineNo(oldest))
    }

    /// The copy to evict to make room for a line that has no copy here, `None` if there is a place for it. The call
    /// doesn't look for a copy.
    #[inline(always)]
    pub fn victim_of_absent(&self, line: LineNo) -> Option<LineNo>
        requires { copy_of self.now line ≡ None }
        ensures { result ≡ victim_for self.now line }
    {
        let set = self.set_of(line);
        if self.table.has_room(set) {
            return None;
        }
        let oldest = self.table.oldest(set)?;
        Some(LineNo(oldest))
    }

    /// The lines of all copies, in rising order.
    pub fn lines(&self) -> Result<Vec<LineNo>, AllocError>
        ensures { IfOk result (λ lines.
            lines.items ≡ sorted (all_listed (λ _. true) self.now.sets)) }
    {
        self.table.lines()
    }

    /// How many copies there are. All but that of the pinned line, if there is one, may be evicted.
    pub fn count(&self) -> usize
        ensures count { result ≡ length (all_listed (λ _. true) self.now.sets) }
        ensures free { (pinned : Option ℕ) → length (free_lines self.now pinned)
            + (if has_pinned self.now pinned then 1 else 0) ≡ result }
    {
        self.table.count_listed_lines()
    }

    /// Whether there is a copy of the pinned line.
    #[inline(always)]
    pub fn has_pinned(&self, pinned: &Option<LineNo>) -> bool
        ensures { result ≡ has_pinned self.now pinned.now }
    {
        match pinned {
            Some(line) => self.find(*line).is_some(),
            None => false,
        }
    }

    /// How many copies may be evicted: all but that of the pinned line.
    pub fn free_copies(&self, pinned: Option<LineNo>) -> usize
        ensures { result ≡ length (free_lines self.now pinned) }
    {
        self.count() - usize::from(self.has_pinned(&pinned))
    }

    /// The line at an index of all copies but the pinned one, in rising order of their lines.
    pub fn free_copy(&self, pinned: Option<LineNo>, at: usize) -> Result<LineNo, AllocError>
        requires { at < length (free_lines self.now pinned) }
        ensures { IfOk result (λ line. slice_get (sorted (free_lines self.now pinned)) at ≡ Some
            line) }
    {
        self.table.nth_listed(pinned, at)
    }

    /// Keeps the lines of all copies in rising order from now on, so that `free_copy` allocates nothing.
    /// `LineSets::keep_order` states what that allocates and moves. If the allocation fails, nothing changes.
    pub fn keep_order(&mut self) -> Result<(), AllocError>
        ensures { self.new ≡ self.old }
    {
        self.table.keep_order()
    }

    /// Stops keeping the lines in rising order. The memory for that stays.
    pub fn pause_order(&mut self)
        ensures { self.new ≡ self.old }
    {
        self.table.pause_order();
    }

    /// Stops keeping the lines in rising order, and frees the memory for that.
    pub fn forget_order(&mut self)
        ensures { self.new ≡ self.old }
    {
        self.table.forget_order();
    }
}
