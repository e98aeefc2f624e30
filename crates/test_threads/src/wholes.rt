//! Whether all seats of a machine, or all drawers of numbers, are there: not where some are missing.
use crate::driver::ONE;
use drawn_numbers::open_numbers;
use mailboxes::open;
use physiological_order::Memory;
use std::alloc::Global;

// Whether a machine is whole with all its seats, and neither without those of cores nor without those of banks.
fn seats_are_wanted(alloc: Global) -> bool {
    let Ok((machine, cores, banks)) = open(alloc, ONE, Memory::new(alloc)) else {
        return false;
    };
    machine.is_whole(cores.as_slice(), banks.as_slice())
        && !machine.is_whole(&[], banks.as_slice())
        && !machine.is_whole(cores.as_slice(), &[])
}

// Whether numbers are whole with all their drawers, and not without them.
fn drawers_are_wanted(alloc: Global) -> bool {
    let Ok((numbers, drawers)) = open_numbers(alloc, 2) else {
        return false;
    };
    numbers.is_whole(drawers.as_slice()) && !numbers.is_whole(&[])
}

#[test]
fn nothing_is_whole_without_its_seats(rt: HostRuntime) {
    assert!(rt; seats_are_wanted(rt.alloc()) && drawers_are_wanted(rt.alloc()));
}
