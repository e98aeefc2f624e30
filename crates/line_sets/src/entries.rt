//! One row: where the lines of a set lie. A line is found by its tag.
ghost use Rattle.std.specs.Prelude.{◌≡◌, ◌<◌, ◌≤◌, ◌==◌, ℕ, get_or, not, IsSome};
ghost use Rattle.std.specs.List.{prefix_len};
ghost use Rattle.line_arena.specs.CellLists.{look_up};
ghost use Rattle.line_sets.specs.TaggedRows.{no_row, freed, with_line, IsPlaceOf};
ghost use Rattle.line_sets.specs.Tags.{tag_of};

use line_arena::{Arena, Cell};
use std::simd::prelude::*;

/// The tags of up to 16 lines, how many there are, and the cell of each. A line's number lies in its cell alone.
#[derive(Clone, Copy)]
pub struct Row {
    pub(crate) tags: [u8; 16],
    pub(crate) count: u16,
    pub(crate) cells: [u16; 16],
}

/// The tag of a line.
#[tactic(auto, unfolding(crate::specs::Tags::tag_of))]
#[inline(always)]
fn tag_of(line: u64) -> u8
    ensures { result ≡ tag_of line }
{
    (line.wrapping_mul(0x9E37_79B9_7F4A_7C15) >> 56) as u8
}

/// How many tags come before the first that is this one: 16 if none is.
#[inline(always)]
fn count_tags_before(tags: &[u8; 16], tag: u8) -> usize
    ensures { result ≡ prefix_len (λ other. not (other == tag)) tags.now }
{
    let same = u8x16::from_array(*tags)
        .simd_eq(u8x16::splat(tag))
        .to_bitmask();
    if same == 0 {
        return 16;
    }
    same.trailing_zeros() as usize
}

impl Row {
    /// No lines.
    pub(crate) fn new() -> Row
        ensures { result ≡ no_row }
    {
        Row {
            tags: [0; 16],
            count: 0,
            cells: [0; 16],
        }
    }

    /// The place of a line. It is the first with the line's tag, but where two lines have one tag.
    #[inline(always)]
    pub(crate) fn index_of_line<V>(&self, arena: &Arena<(u64, V)>, line: u64) -> Option<usize>
        requires few { self.now.count ≤ 16 }
        requires cells { (k : ℕ) → k < self.now.count →
            IsSome (look_up (get_or self.now.cells k 0) arena.now.lists) }
        ensures { IsPlaceOf self.now arena.now.lists line result }
    {
        let tag = tag_of(line);
        let at = count_tags_before(&self.tags, tag);
        if at >= self.count as usize {
            return None;
        }
        if arena.get(Cell(self.cells[at] as u32)).0 == line {
            return Some(at);
        }
        self.searched_index_of_line(arena, line, tag)
    }

    // The place of a line, searched from the last on.
    fn searched_index_of_line<V>(
        &self,
        arena: &Arena<(u64, V)>,
        line: u64,
        tag: u8,
    ) -> Option<usize>
        requires tag { tag ≡ tag_of line }
        requires few { self.now.count ≤ 16 }
        requires cells { (k : ℕ) → k < self.now.count →
            IsSome (look_up (get_or self.now.cells k 0) arena.now.lists) }
        ensures { IsPlaceOf self.now arena.now.lists line result }
    {
        let mut left = self.count as usize;
        while left > 0 {
            left -= 1;
            if self.tags[left] != tag {
                continue;
            }
            if arena.get(Cell(self.cells[left] as u32)).0 == line {
                return Some(left);
            }
        }
        None
    }

    /// Puts a line with its cell at the end.
    pub(crate) fn push(&mut self, line: u64, cell: u32)
        requires room { self.old.count < 16 }
        requires cell { cell < 65536 }
        ensures { self.new ≡ with_line line cell self.old }
    {
        self.tags[self.count as usize] = tag_of(line);
        self.cells[self.count as usize] = cell as u16;
        self.count += 1;
    }

    /// Takes the line of a place out. The last line takes its place.
    #[inline(always)]
    pub(crate) fn take_line_out(&mut self, at: usize)
        requires { (at < self.old.count) × (self.old.count ≤ 16) }
        ensures { self.new ≡ freed at self.old }
    {
        let last = self.count as usize - 1;
        self.tags[at] = self.tags[last];
        self.cells[at] = self.cells[last];
        self.count -= 1;
    }
}
