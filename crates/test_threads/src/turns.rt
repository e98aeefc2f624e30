//! Which turns workers give seats, as a gate sees them.
ghost use Rattle.std.specs.Prelude.{◌<◌};

use crate::driver::{Case, ONE, end_of};
use crate::turn_counts::TurnCounts;
use machine_table::Config;
use programs::End;
use std::alloc::Global;
use std::rt::Clock;
use std::test::Fail;
use std::thread::Threads;

/// Far more turns than any worker has while it waits for another one whose thread has no processor.
const MANY_TURNS: u32 = 4_294_967_295;

/// Core 0 stores once.
const STORE: Case = Case {
    config: ONE,
    programs: &[(0, 0, 1)],
    turn_limit: 1_000,
    fair: false,
};

/// Core 0 stores, and then uses the line that it owns, once a turn.
const OWN_LINE: Case = Case {
    programs: &[(0, 0, 1_000)],
    turn_limit: 10_000,
    ..STORE
};

const STORE_ONCE: Case = Case {
    turn_limit: 1,
    ..STORE
};

const NO_TURN: Case = Case {
    turn_limit: 0,
    ..STORE
};

/// Two cores without steps.
const NOTHING: Case = Case {
    config: Config { cores: 2, ..ONE },
    programs: &[],
    turn_limit: 1_000,
    fair: false,
};

/// One time is left: the first store of each core takes it. Core 0 loads five times, and can't store once more.
const LAST_TIME: Case = Case {
    config: Config {
        cores: 2,
        opening_time: 18_446_744_073_709_551_614,
        ..ONE
    },
    programs: &[(0, 0, 7), (1, 0, 2)],
    turn_limit: 1_000,
    fair: false,
};

/// A lease of 10 doesn't fit after the opening time, so the first bank stops when it would grant the load. The second
/// bank has nothing to do.
const NO_LEASE: Case = Case {
    config: Config {
        banks: 2,
        opening_time: 18_446_744_073_709_551_614,
        ..ONE
    },
    programs: &[(0, 1, 2)],
    turn_limit: 1_000,
    fair: false,
};

/// A case, its workers, how many times first turns look for each other, how it ends, how many turns the first seats
/// have, and how many of two first turns see the other.
///
/// A worker alone sees at once that programs without steps are all done. A core asks for its line in its first turn,
/// and waits in its second. The bank loads the line in three turns, grants it in its fourth, puts that in its fifth,
/// which takes the next request, and has one more. In pass 2 the core takes the grant in its third turn, stores in its
/// fourth, and has one more, and so has the bank. Each of the 999 operations behind the store, on the line that the
/// core owns, takes one turn: 14 of them in pass 2, which has 16 turns of the core; 976 in 61 passes; and 9. A seat
/// that stops ends the pass. Two workers give turns at the same time. One gives one turn after the other, so the first
/// one looks in vain.
const GIVEN: &[(Case, u32, u32, End, [u64; 3], u64)] = &[
    (NO_TURN, 1, 0, End::TurnsUsed, [0, 0, 0], 0),
    (NO_TURN, 2, 0, End::TurnsUsed, [0, 0, 0], 0),
    (NOTHING, 1, 0, End::AllDone, [0, 0, 0], 0),
    (STORE, 1, 0, End::AllDone, [5, 7, 0], 0),
    (OWN_LINE, 1, 0, End::AllDone, [1_004, 69, 0], 0),
    (LAST_TIME, 1, 0, End::Exhausted, [10, 2, 10], 0),
    (NO_LEASE, 1, 0, End::Exhausted, [2, 4, 0], 0),
    (STORE_ONCE, 1, 100, End::TurnsUsed, [1, 1, 0], 1),
    (STORE_ONCE, 2, 10_000_000, End::TurnsUsed, [1, 1, 0], 2),
    (STORE_ONCE, 16, 0, End::TurnsUsed, [1, 1, 0], 0),
];

// Whether a case ends so that so many workers drive, and they give its first seats so many turns each.
fn gives<R: Threads + Clock + Sync>(
    rt: &R,
    alloc: Global,
    case: &Case,
    workers: u32,
    gate: &TurnCounts,
    end: End,
    counts: &[u64],
    met: u64,
) -> bool {
    (1..=16).contains(&workers)
        && end_of(rt, alloc, case, workers, gate) == Some(end)
        && gate.are(counts, met)
}

#[test]
fn turns_end_with_the_programs_or_a_seat_that_stops(rt: HostRuntime) -> Result<(), Fail> {
    for (case, workers, looks, end, counts, met) in GIVEN {
        let gate = TurnCounts::new(rt.alloc(), 3, *looks)?;
        assert!(rt;
            gives(&rt, rt.alloc(), case, *workers, &gate, *end, counts, *met),
            "{counts:?}"
        );
    }
    Ok(())
}

/// The bank has a place for one line. Core 0 stores to a line, core 1 loads it, and core 2 loads another one.
const ONE_PLACE: Case = Case {
    config: Config {
        cores: 3,
        bank_sets: 1,
        bank_ways: 1,
        ..ONE
    },
    programs: &[(0, 0, 1), (0, 1, 2), (1, 1, 2)],
    turn_limit: 1_000,
    fair: false,
};

// If the bank makes room before its turn, a line goes before the load of it is served, until all turns are used. By
// fair turns there are four passes: core 0 has 2, 4, 1 and 1 turns in them, core 1 has 2, 1, 3 and 1, core 2 has 2, 1,
// 1 and 3, and the bank has 7, 4, 8 and 1.
#[test]
fn fair_turns_serve_before_a_line_goes(rt: HostRuntime) -> Result<(), Fail> {
    for (fair, end, counts) in [
        (false, End::TurnsUsed, [1_000; 4]),
        (true, End::AllDone, [8, 7, 7, 20]),
    ] {
        let case = Case { fair, ..ONE_PLACE };
        let gate = TurnCounts::new(rt.alloc(), 4, 0)?;
        assert!(rt;
            gives(&rt, rt.alloc(), &case, 1, &gate, end, &counts, 0),
            "fair: {fair}"
        );
    }
    Ok(())
}

/// Core 2 of five has five loads to do, which take more than five turns; the others have nothing to do. Two banks.
const BUSY: Case = Case {
    config: Config {
        cores: 5,
        banks: 2,
        ..ONE
    },
    programs: &[(0, 0, 0), (0, 0, 0), (0, 1, 6)],
    turn_limit: MANY_TURNS,
    fair: false,
};

#[test]
fn turns_are_used_once_each_seat_had_all_of_its_turns(rt: HostRuntime) -> Result<(), Fail> {
    for turns in &[1, 2, 5] {
        let case = Case {
            turn_limit: *turns,
            ..BUSY
        };
        let counts = [u64::from(*turns); 7];
        for workers in 1..=16 {
            let gate = TurnCounts::new(rt.alloc(), 7, 0)?;
            assert!(rt;
                gives(
                    &rt,
                    rt.alloc(),
                    &case,
                    workers,
                    &gate,
                    End::TurnsUsed,
                    &counts,
                    0
                ),
                "{turns} turns, {workers} workers"
            );
        }
    }
    Ok(())
}

/// Core 2 isn't done before its last turn.
const LONG: Case = Case {
    programs: &[(0, 0, 0), (0, 0, 0), (0, 1, MANY_TURNS)],
    turn_limit: 70_000,
    ..BUSY
};

/// The most cores and banks that there may be, one of them busy.
const MOST_SEATS: Case = Case {
    config: Config {
        cores: 64,
        banks: 8,
        ..ONE
    },
    programs: &[(0, 1, 6)],
    turn_limit: 2,
    fair: false,
};

// The gate is told each seat, the banks after the cores, and each turn by their numbers.
#[test]
fn all_turns_of_many_and_many_seats_are_given(rt: HostRuntime) -> Result<(), Fail> {
    for (case, seats, workers) in [(LONG, 7, 1), (MOST_SEATS, 72, 16)] {
        let gate = TurnCounts::new(rt.alloc(), seats, 0)?;
        let end = end_of(&rt, rt.alloc(), &case, workers, &gate);
        assert_eq!(rt; end, Some(End::TurnsUsed));
        for seat in 0..seats {
            let turns = gate.of(seat as usize);
            assert_eq!(rt; turns, Some(u64::from(case.turn_limit)), "seat {seat}");
        }
    }
    Ok(())
}

// The turns of a worker's first seat that isn't one of the busy ones.
fn idle_turns(
    gate: &TurnCounts,
    seats: usize,
    first: usize,
    workers: usize,
    busy: [usize; 2],
) -> Option<u64> {
    for seat in first..seats {
        if seat.checked_rem(workers) == Some(first) && !busy.contains(&seat) {
            return gate.of(seat);
        }
    }
    None
}

// Whether the seats of each worker had as many turns as each other, or more if they are busy, and fewer than they may
// have.
fn are_together(gate: &TurnCounts, seats: usize, workers: usize, busy: [usize; 2]) -> bool {
    for seat in 0..seats {
        let Some(turns) = gate.of(seat) else {
            return false;
        };
        let first = seat.checked_rem(workers).unwrap_or(0);
        let idle = idle_turns(gate, seats, first, workers, busy).unwrap_or(turns);
        let is_alike = turns == idle || turns > idle && busy.contains(&seat);
        if !is_alike || turns >= u64::from(MANY_TURNS) {
            return false;
        }
    }
    true
}

/// Core 0 of 20 has five loads to do. Eight banks.
const BUSY_MANY: Case = Case {
    config: Config {
        cores: 20,
        banks: 8,
        ..ONE
    },
    programs: &[(0, 1, 6)],
    ..BUSY
};

// Seat i belongs to worker i modulo their number. A seat that has nothing to do has one turn a pass, so as many as the
// others of that worker; the busy core and the bank of its line have more.
#[test]
fn every_number_of_workers_completes_the_program(rt: HostRuntime) -> Result<(), Fail> {
    for (case, seats, busy) in [(BUSY, 7, [2, 5]), (BUSY_MANY, 28, [0, 20])] {
        for workers in 1..=16 {
            let gate = TurnCounts::new(rt.alloc(), seats, 0)?;
            let end = end_of(&rt, rt.alloc(), &case, workers, &gate);
            assert!(rt;
                end == Some(End::AllDone)
                    && are_together(&gate, seats as usize, workers as usize, busy),
                "{seats} seats, {workers} workers"
            );
        }
    }
    Ok(())
}

/// Core 0 stops, and everyone else may have more turns.
const STOPS_CORE: Case = Case {
    turn_limit: MANY_TURNS,
    ..LAST_TIME
};

/// The bank stops in its fourth turn, for either core whose load it would grant then.
const STOPS_BANK: Case = Case {
    programs: &[(0, 1, 2), (1, 1, 2)],
    ..STOPS_CORE
};

// How many turns core 0 and the bank have, which one worker drives, if a seat of these stops and so ends the turns of
// the other worker, which has core 1.
fn turns_to_the_stop<R: Threads + Clock + Sync>(
    rt: &R,
    alloc: Global,
    case: &Case,
) -> Option<(u64, u64)> {
    let gate = TurnCounts::new(alloc, 3, 0).ok()?;
    if end_of(rt, alloc, case, 2, &gate) != Some(End::Exhausted) {
        return None;
    }
    if gate.of(1)? >= u64::from(MANY_TURNS) {
        return None;
    }
    Some((gate.of(0)?, gate.of(2)?))
}

// The core stops in its tenth turn, in pass 2, and the bank has had its turns in pass 1 alone: six, or more, if it also
// found a request of core 1. It stops in its fourth turn, when the core has had two.
#[test]
fn a_seat_that_stops_ends_the_turns_of_all_workers(rt: HostRuntime) {
    let core = turns_to_the_stop(&rt, rt.alloc(), &STOPS_CORE);
    assert!(rt; matches!(core, Some((10, 6..=16))));
    assert_eq!(rt;
        turns_to_the_stop(&rt, rt.alloc(), &STOPS_BANK),
        Some((2, 4))
    );
}

/// The first of 16 cores stops, and the others have nothing to do.
const STOPS_ONE_OF_MANY: Case = Case {
    config: Config {
        cores: 16,
        opening_time: 18_446_744_073_709_551_614,
        ..ONE
    },
    programs: &[(0, 0, 7)],
    turn_limit: MANY_TURNS,
    fair: false,
};

// Each worker finds the stop, however many there are. If one didn't, it would go on for as many turns as there may be.
#[test]
fn each_of_many_workers_finds_the_stop(rt: HostRuntime) -> Result<(), Fail> {
    for workers in [3, 9, 16] {
        let gate = TurnCounts::new(rt.alloc(), 17, 0)?;
        let end = end_of(&rt, rt.alloc(), &STOPS_ONE_OF_MANY, workers, &gate);
        assert_eq!(rt; end, Some(End::Exhausted), "{workers} workers");
    }
    Ok(())
}
