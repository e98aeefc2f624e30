//! Values left on the lists of an arena are dropped once, by `clear` or with the arena; one that was taken off, with
//! it.
use line_arena::Arena;
use std::alloc::{AllocError, Global};
use std::rc::Rc;

/// Puts one more owner of the value at the end of a list, if there are such a list, room and memory.
fn put(arena: &mut Arena<Rc<i32>>, list: u32, value: &Rc<i32>) {
    if list < arena.lists() {
        if let Ok(more) = value.clone() {
            let _cell = arena.push_back(list, more);
        }
    }
}

/// Takes the value at the front off a list, if there is one.
fn taken(arena: &mut Arena<Rc<i32>>, list: u32) -> Option<Rc<i32>> {
    if list >= arena.lists() {
        return None;
    }
    let first = arena.front(list)?;
    if !arena.holds(first) {
        return None;
    }
    Some(arena.unlink(first))
}

/// How many owners a value has: with two on lists, and once these are cleared; with four, one of which is taken off;
/// once the arena is dropped; and once the one that was taken off is.
fn owners(alloc: Global) -> Result<[usize; 5], AllocError> {
    let value = Rc::new(alloc, 0)?;
    let Ok(mut arena) = Arena::new(alloc, 4, 2) else {
        return Err(AllocError);
    };
    put(&mut arena, 0, &value);
    put(&mut arena, 1, &value);
    let listed = Rc::strong_count(&value);
    arena.clear();
    let cleared = Rc::strong_count(&value);
    put(&mut arena, 0, &value);
    put(&mut arena, 1, &value);
    put(&mut arena, 1, &value);
    put(&mut arena, 0, &value);
    let one = taken(&mut arena, 1);
    let apart = Rc::strong_count(&value);
    drop(arena);
    let left = Rc::strong_count(&value);
    drop(one);
    Ok([listed, cleared, apart, left, Rc::strong_count(&value)])
}

#[test]
fn each_value_is_dropped_once(rt: HostRuntime) {
    assert_eq!(rt; owners(rt.alloc()), Ok([3, 1, 5, 2, 1]));
}
