//! An arena step by step: a value that finds no free cell comes back, and one that is moved stands at the end of its
//! new list.
use line_arena::{Arena, Cell};
use std::alloc::Global;

/// Puts a value at the end of a list, if there is such a list: its cell, or the value, if no cell is free.
fn pushed(arena: &mut Arena<u32>, list: u32, value: u32) -> Result<Cell, u32> {
    if list < arena.lists() {
        arena.push_back(list, value)
    } else {
        Err(0)
    }
}

/// Moves a cell to the end of a list, if there are both.
fn relist(arena: &mut Arena<u32>, list: u32, cell: Cell) {
    if list < arena.lists() {
        if arena.holds(cell) {
            arena.move_to_back(list, cell);
        }
    }
}

/// Takes a cell off its list, if it is on one: its value, or 0.
fn taken(arena: &mut Arena<u32>, cell: Cell) -> u32 {
    if arena.holds(cell) {
        arena.unlink(cell)
    } else {
        0
    }
}

/// The value of a cell that is on a list, and the next cell there; of no cell 0.
fn value_at(arena: &Arena<u32>, at: Option<Cell>) -> (u32, Option<Cell>) {
    let Some(cell) = at else {
        return (0, None);
    };
    if arena.holds(cell) {
        (*arena.get(cell), arena.next(cell))
    } else {
        (0, None)
    }
}

/// The first two values of a list, with 0 behind its last one, and how many it has.
fn values(arena: &Arena<u32>, list: u32) -> [u32; 3] {
    if list >= arena.lists() {
        return [0; 3];
    }
    let (first, next) = value_at(arena, arena.front(list));
    let (second, _) = value_at(arena, next);
    [first, second, arena.len(list)]
}

/// Both lists, and how many cells are free.
fn lists(arena: &Arena<u32>) -> ([u32; 3], [u32; 3], u32) {
    (values(arena, 0), values(arena, 1), arena.free())
}

/// Three cells for two lists: 10 and 11 are put on the first one and 12 on the second, where 13 comes back. Then 10
/// moves to the second, 12 is taken off, and 14 is put on the first one.
fn steps(alloc: Global) -> Option<[([u32; 3], [u32; 3], u32); 4]> {
    let mut arena = Arena::new(alloc, 3, 2).ok()?;
    let ten = pushed(&mut arena, 0, 10).ok()?;
    let _eleven = pushed(&mut arena, 0, 11).ok()?;
    let twelve = pushed(&mut arena, 1, 12).ok()?;
    if pushed(&mut arena, 1, 13) != Err(13) {
        return None;
    }
    let full = lists(&arena);
    relist(&mut arena, 1, ten);
    let moved = lists(&arena);
    if taken(&mut arena, twelve) != 12 {
        return None;
    }
    let apart = lists(&arena);
    let _fourteen = pushed(&mut arena, 0, 14).ok()?;
    Some([full, moved, apart, lists(&arena)])
}

#[test]
fn values_move_and_come_back(rt: HostRuntime) {
    assert_eq!(rt;
        steps(rt.alloc()),
        Some([
            ([10, 11, 2], [12, 0, 1], 0),
            ([11, 0, 1], [12, 10, 2], 0),
            ([11, 0, 1], [10, 0, 1], 1),
            ([11, 14, 2], [10, 0, 1], 0),
        ])
    );
}

/// An arena without cells has no room.
fn without_cells(alloc: Global) -> Option<Result<Cell, u32>> {
    let mut arena = Arena::new(alloc, 0, 1).ok()?;
    Some(pushed(&mut arena, 0, 5))
}

#[test]
fn an_arena_without_cells_takes_nothing(rt: HostRuntime) {
    assert_eq!(rt; without_cells(rt.alloc()), Some(Err(5)));
}
