//! What histories of any origin ask, and no machine's do: a replay, stale hits where times of writes fall, and a check
//! whose steps are counted. The values were worked out by hand.
use physiological_order::{
    Memory, Op, Record, Steps, Verdict, WordAddr, arrange, check, check_counted, replay,
    rises_by_number, stale_hits, stale_hits_counted,
};
use std::alloc::{AllocError, Global};
use std::test::Fail;

fn load(word: u64) -> Op {
    Op::Load(WordAddr::at(word % 8))
}

fn store(word: u64, value: u64) -> Op {
    Op::Store(WordAddr::at(word % 8), value)
}

// A record: its core and place, its operation and what it received, its time and its number.
fn record(core: u32, place: u32, op: Op, received: Option<u64>, ts: u64, number: u64) -> Record {
    Record {
        core,
        place,
        op,
        received,
        ts,
        number,
    }
}

// Whether a replay over a memory whose word 0 is 9 receives old values, and leaves that memory as it was.
fn receives_old_values(alloc: Global, opening: &Memory) -> Result<bool, AllocError> {
    let swap = Op::Swap(WordAddr::at(0), 4);
    let operations = [load(0), swap, store(1, 7), load(0), load(1)];
    let (received, end) = replay(alloc, opening, &operations)?;
    let is_received = received.as_slice() == [Some(9), Some(9), None, Some(4), Some(7)].as_slice();
    let is_left = end.get(WordAddr::at(0)) == 4 && end.get(WordAddr::at(1)) == 7;
    Ok(is_received && is_left && opening.get(WordAddr::at(0)) == 9)
}

#[test]
fn a_replay_receives_old_values(rt: HostRuntime) -> Result<(), Fail> {
    let mut opening = Memory::new(rt.alloc());
    opening.set(WordAddr::at(0), 9)?;
    assert!(rt; receives_old_values(rt.alloc(), &opening)?);
    Ok(())
}

// Whether records of one time and of the greatest numbers are arranged by number.
fn are_arranged_by_number(alloc: Global) -> Result<bool, AllocError> {
    let first = record(0, 0, load(0), Some(0), 5, u64::MAX - 1);
    let last = record(1, 0, load(0), Some(0), 5, u64::MAX);
    Ok(arrange(alloc, &[last, first])?.as_slice() == [first, last].as_slice())
}

#[test]
fn the_greatest_numbers_are_arranged(rt: HostRuntime) {
    assert_eq!(rt; are_arranged_by_number(rt.alloc()), Ok(true));
}

// The times of the second store and of the swap are smaller, so 9 stays the greatest: only the load at 6 is before it.
// A write is no stale hit, whatever its time.
#[test]
fn the_greatest_time_of_a_write_is_kept(rt: HostRuntime) {
    let swap = Op::Swap(WordAddr::at(0), 3);
    let records = [
        record(0, 0, store(0, 1), None, 9, 0),
        record(1, 0, store(0, 2), None, 4, 1),
        record(1, 1, swap, Some(2), 5, 2),
        record(2, 0, load(0), Some(3), 6, 3),
        record(2, 1, load(0), Some(1), 9, 4),
    ];
    assert!(rt; rises_by_number(&records) && stale_hits(rt.alloc(), &records) == Ok(1));
}

// What a check says of a record of the last core that a record can name, where no core was issued anything.
fn verdict_of_the_last_core(alloc: Global) -> Result<Verdict, AllocError> {
    let records = [record(u32::MAX, 0, load(0), Some(0), 1, 0)];
    check(alloc, &Memory::new(alloc), &[], &records)
}

#[test]
fn a_check_has_no_limit_on_cores(rt: HostRuntime) {
    assert!(rt; verdict_of_the_last_core(rt.alloc()) == Ok(Verdict::OutOfProgramOrder(0)));
}

// How many steps a check of a store, a swap and a load takes, and how many there are with their stale hits.
fn counted(alloc: Global) -> Result<(u128, u128), AllocError> {
    let swap = Op::Swap(WordAddr::at(0), 2);
    let issued = [vec![in alloc; store(0, 1), swap, load(0)]?];
    let records = [
        record(0, 0, store(0, 1), None, 1, 0),
        record(0, 1, swap, Some(1), 1, 1),
        record(0, 2, load(0), Some(2), 2, 2),
    ];
    let mut steps = Steps::new();
    check_counted(alloc, &mut steps, &Memory::new(alloc), &issued, &records)?;
    let of_check = steps.made();
    if rises_by_number(&records) {
        stale_hits_counted(alloc, &mut steps, &records)?;
    }
    Ok((of_check, steps.made()))
}

// As docs/ORDER.md counts them: two records are compared with the one before, the first of them at the same time; store
// and swap look twice, the load once.
#[test]
fn steps_are_those_of_the_page(rt: HostRuntime) {
    assert!(rt; counted(rt.alloc()) == Ok((2, 7)));
}

// How many comparisons a check takes of two cores with a record each, which are merged.
fn merged(alloc: Global) -> Result<u128, AllocError> {
    let issued = [vec![in alloc; load(0)]?, vec![in alloc; load(0)]?];
    let records = [
        record(0, 0, load(0), Some(0), 1, 0),
        record(1, 0, load(0), Some(0), 2, 1),
    ];
    let mut steps = Steps::new();
    check_counted(alloc, &mut steps, &Memory::new(alloc), &issued, &records)?;
    Ok(steps.made())
}

// Each is the first of its core, so dealing compares none; merging compares the two once.
#[test]
fn comparisons_of_a_merge_are_counted(rt: HostRuntime) {
    assert_eq!(rt; merged(rt.alloc()), Ok(1));
}
