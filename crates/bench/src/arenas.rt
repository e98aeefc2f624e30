//! Arenas made and dropped, cells moved, values put and taken. The numbers are rounds, cells and lists.

use line_arena::{Arena, Cell};
use std::alloc::Global;

/// A value as large as a cached copy of a line of eight words.
#[derive(Clone, Copy, Drop)]
struct Line {
    words: [u64; 10],
}

/// The list of a number.
fn list_of(number: u32, lists: u32) -> u32 {
    number.checked_rem(lists).unwrap_or(0)
}

/// Puts a value at the end of a list, if there is such a list and a free cell.
fn put(arena: &mut Arena<Line>, list: u32, value: u64) -> Option<Cell> {
    if list >= arena.lists() {
        return None;
    }
    arena.push_back(list, Line { words: [value; 10] }).ok()
}

/// Makes an arena, puts eight values into it and drops it, once for each round.
pub(crate) fn make(alloc: Global, [rounds, cells, lists, _]: [u32; 4]) -> Option<u64> {
    let mut sum = 0u64;
    for round in 0..rounds {
        let mut arena = Arena::new(alloc, cells, lists).ok()?;
        for value in 0..8u64 {
            if put(&mut arena, 0, value).is_some() {
                sum = sum.wrapping_add(value);
            }
        }
        sum = sum.wrapping_add(u64::from(round) ^ u64::from(arena.free()));
    }
    Some(sum)
}

/// Moves a cell of a full arena to the end of a list, once for each round.
pub(crate) fn moves(alloc: Global, [rounds, cells, lists, _]: [u32; 4]) -> Option<u64> {
    let mut arena = Arena::new(alloc, cells, lists).ok()?;
    for number in 0..cells {
        let list = list_of(number.wrapping_mul(7), lists);
        let _cell = put(&mut arena, list, u64::from(number));
    }
    let mut sum = 0u64;
    for round in 0..rounds {
        let mixed = round.wrapping_mul(2_654_435_761);
        let cell = Cell(mixed.checked_rem(cells).unwrap_or(0));
        let list = list_of(round, lists);
        if list < arena.lists() && arena.holds(cell) {
            arena.move_to_back(list, cell);
            if let Some(first) = arena.front(list) {
                sum = sum.wrapping_add(u64::from(first.0));
            }
        }
    }
    Some(sum)
}

/// Puts a value into a full arena, once for each round: if no cell is free, it first takes the first value of the list
/// out.
pub(crate) fn churn(alloc: Global, [rounds, cells, lists, _]: [u32; 4]) -> Option<u64> {
    let mut arena = Arena::new(alloc, cells, lists).ok()?;
    let mut sum = 0u64;
    for round in 0..rounds {
        let list = list_of(round, lists);
        if let Some(cell) = put(&mut arena, list, u64::from(round)) {
            sum = sum.wrapping_add(u64::from(cell.0));
        } else if list < arena.lists() {
            if let Some(first) = arena.front(list) {
                if arena.holds(first) {
                    sum ^= arena.unlink(first).words[3];
                }
            }
        }
    }
    Some(sum)
}
