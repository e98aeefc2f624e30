//! What a watcher is shown of one store, by rounds and by a seed, and where it makes no room.
use crate::in_flight::InFlight;
use interleaving_core::{Config, System};
use physiological_order::{Memory, Op, WordAddr};
use programs::{End, OpProgram};
use schedules::{Pace, Policy, run_on};
use std::alloc::Global;

/// The program's defaults, with one core.
const ONE: Config = Config {
    cores: 1,
    banks: 1,
    sets: 64,
    ways: 4,
    bank_sets: 256,
    bank_ways: 8,
    line_words: 1,
    lease: 10,
    messages: 4096,
    opening_time: 0,
    private_write: false,
};

/// A run of one store: its policy, how many turns are a piece of its own, the most events that the watcher takes, how
/// it ends, how many messages are in flight after each event and at the end, and how many attempts waited.
#[derive(Clone, Copy)]
struct Case {
    policy: Policy,
    first: u32,
    most: usize,
    end: End,
    counts: &'static [u64],
    left: u32,
    waits: u64,
}

/// By rounds the store is issued, and the core sends a request. The bank takes it in and sends DramLd. While DRAM
/// answers and the words come, the core waits and the request is held. In the fourth round the request is answered by
/// ExRep, which comes in the fifth; the sixth completes the store. With room for two events, the delivery of the
/// request isn't made.
///
/// Seed 1 draws: Issue, Attempt, the request, which is taken in, then held four times, DramLd, its reply, Advance, the
/// request, ExRep, EvictBank, which recalls the line, the recall, held twice, Advance, and the attempt that completes.
const CASES: [Case; 3] = [
    Case {
        policy: Policy::Rounds,
        first: 2,
        most: 14,
        end: End::AllDone,
        counts: &[0, 1, 2, 2, 2, 2, 2, 2, 1, 1, 1, 1, 0, 0],
        left: 0,
        waits: 4,
    },
    Case {
        policy: Policy::Rounds,
        first: 0,
        most: 2,
        end: End::NoMemory,
        counts: &[0, 1],
        left: 1,
        waits: 0,
    },
    Case {
        policy: Policy::Seed(1),
        first: 5,
        most: 17,
        end: End::AllDone,
        counts: &[0, 1, 2, 2, 2, 2, 2, 2, 1, 1, 1, 0, 1, 1, 1, 1, 1],
        left: 1,
        waits: 0,
    },
];

/// The number of the first case that comes out otherwise, or of all cases; `None` if an allocation failed.
fn first_wrong(alloc: Global) -> Option<usize> {
    for number in 0..CASES.len() {
        if !is_as_told(alloc, &CASES[number])? {
            return Some(number);
        }
    }
    Some(CASES.len())
}

/// Whether a case comes out so; `None` if an allocation failed.
fn is_as_told(alloc: Global, case: &Case) -> Option<bool> {
    let mut system = System::new(alloc, ONE, Memory::new(alloc)).ok()?;
    let mut ops = Vec::new(alloc);
    ops.push(Op::Store(WordAddr::at(0), 1)).ok()?;
    let mut programs = [OpProgram::new(ops)];
    if system.cores() != 1 {
        return None;
    }
    let watcher = InFlight {
        counts: Vec::new(alloc),
        waits: 0,
        most: case.most,
    };
    let mut pace = Pace::new(case.policy);
    let (met, watcher) = run_on(
        alloc,
        &mut system,
        &mut programs,
        watcher,
        &mut pace,
        case.first,
    );
    if met != End::TurnsUsed || system.cores() != 1 {
        return None;
    }
    let (end, seen) = run_on(alloc, &mut system, &mut programs, watcher, &mut pace, 100);
    Some(
        end == case.end
            && seen.counts.as_slice() == case.counts
            && seen.waits == case.waits
            && system.messages() == case.left,
    )
}

#[test]
fn runs_show_each_event_once(rt: HostRuntime) {
    assert_eq!(rt; first_wrong(rt.alloc()), Some(CASES.len()));
}
