//! Two threads that draw numbers: all are drawn, each once, and each thread's own rise.
ghost use Rattle.std.specs.Prelude.{◌≡◌};
ghost use Rattle.drawn_numbers.specs.Drawers.{IsDrawerOf};

use drawn_numbers::{Drawer, Numbers, open_numbers};
use std::alloc::{AllocError, Global};
use std::thread;
use std::thread::Threads;

// Draws this many numbers, or fewer where there is no memory for more.
fn draw_many(numbers: &Numbers, drawer: &mut Drawer, count: u32)
    requires { IsDrawerOf numbers.now drawer.old }
    ensures { IsDrawerOf numbers.now drawer.new × (drawer.new.number ≡ drawer.old.number) }
{
    for _ in 0..count {
        if drawer.draw(numbers).is_err() {
            return;
        }
    }
}

// What two drawers drew in threads of their own, 1,000 numbers each.
fn drawn<R: Threads + Sync>(rt: &R, alloc: Global) -> Result<Vec<Vec<u64>>, AllocError> {
    let (numbers, mut drawers) = open_numbers(alloc, 2)?;
    thread::for_each_mut(
        rt,
        drawers.as_mut_slice(),
        2,
        &|_, drawer: &mut Drawer| -> ()
            requires { IsDrawerOf numbers drawer.now }
            ensures { IsDrawerOf numbers drawer.exit.now }
        { draw_many(&numbers, drawer, 1000) },
    );
    if !numbers.is_whole(drawers.as_slice()) {
        return Err(AllocError);
    }
    Ok(numbers.close(drawers))
}

// The list behind a number, if it begins with that.
fn behind(list: &[u64], number: u64) -> Option<&[u64]> {
    match list.split_first() {
        Some((first, rest)) if *first == number => Some(rest),
        _ => None,
    }
}

// Whether two lists have 1,000 numbers each, and all from 0 on, in rising order.
fn are_all(lists: &[Vec<u64>]) -> bool {
    let [first, second] = lists else {
        return false;
    };
    let (mut one, mut other) = (first.as_slice(), second.as_slice());
    if one.len() != 1000 || other.len() != 1000 {
        return false;
    }
    for number in 0..2000 {
        if let Some(rest) = behind(one, number) {
            one = rest;
        } else if let Some(rest) = behind(other, number) {
            other = rest;
        } else {
            return false;
        }
    }
    true
}

#[test]
fn two_threads_draw_a_thousand_numbers_each(rt: HostRuntime) {
    assert!(rt; drawn(&rt, rt.alloc()).is_ok_and(|lists| are_all(lists.as_slice())));
}
