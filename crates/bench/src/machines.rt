//! One machine whose cores load, store and swap words, for a number of events. The numbers are events, cores, words,
//! and how many machines are opened (one, if that is 0); the last of them is driven.

use interleaving_core::{Answer, Config, Event, Refusal, System};
use network::LineNo;
use physiological_order::{Memory, Op, Verdict, WordAddr, check};
use std::alloc::{AllocError, Global};

/// The machine that is measured, but for its cores: the program's defaults.
const ONE_CORE: Config = Config {
    cores: 1,
    banks: 1,
    sets: 64,
    ways: 4,
    bank_sets: 256,
    bank_ways: 8,
    line_words: 1,
    lease: 10,
    messages: 4096,
    opening_time: 0,
    private_write: false,
};

/// The multiplier and the increment of a linear congruential generator of 64 bits (Knuth's), which mixes numbers.
const MULTIPLIER: u64 = 6_364_136_223_846_793_005;

const INCREMENT: u64 = 1_442_695_040_888_963_407;

/// The operation of a number on one of the first `words` words: five loads to two stores and a swap.
fn operation_of(number: u64, words: u64) -> Op {
    let mixed = number.wrapping_mul(MULTIPLIER).wrapping_add(INCREMENT);
    let word = WordAddr::at((mixed >> 33).checked_rem(words).unwrap_or(0));
    match mixed % 8 {
        0 | 1 => Op::Store(word, number),
        2 => Op::Swap(word, number),
        _ => Op::Load(word),
    }
}

/// The copy to evict for a core's open operation, in one-word lines.
fn victim_of(system: &System, core: u32) -> Option<LineNo> {
    let (op, _) = system.open_op(core)?;
    system.victim(core, LineNo(op.word()))
}

/// Issues a core its next operation if none is open, and attempts it; evicts a copy if there is no room. Whether the
/// operation is completed, and how many events that made, without the eviction.
fn turn(system: &mut System, core: u32, number: u64, words: u64) -> (bool, u64) {
    let mut events = 1;
    if system.open_op(core).is_none() {
        let _issued = system.step(Event::Issue(core, operation_of(number, words)));
        events = 2;
    }
    match system.step(Event::Attempt(core)) {
        Answer::Completed(_) => return (true, events),
        Answer::Refused(Refusal::NoRoom) => {
            if let Some(victim) = victim_of(system, core) {
                let _evicted = system.step(Event::EvictCache(core, victim));
            }
        }
        _ => (),
    }
    (false, events)
}

/// Delivers each message in flight; evicts a line from its bank where a message is held for room.
fn deliver(system: &mut System) -> Result<u64, AllocError> {
    let numbers = system.in_flight()?;
    for number in &numbers {
        if let Answer::Held = system.step(Event::Deliver(*number)) {
            if let Some(place) = system.make_room(*number) {
                let _evicted = system.step(Event::EvictBank(place.0, place.1));
            }
        }
    }
    Ok(numbers.len() as u64)
}

/// Makes rounds of turns and deliveries until `most` events were made. How many operations were completed.
fn drive(system: &mut System, most: u64, words: u64) -> Result<u64, AllocError> {
    let mut events = 0u64;
    let mut completed = 0u64;
    for number in 0..most {
        if events >= most {
            break;
        }
        for core in 0..system.cores() {
            let place = number.wrapping_mul(64).wrapping_add(u64::from(core));
            let (is_completed, made) = turn(system, core, place, words);
            events = events.saturating_add(made);
            if is_completed {
                completed = completed.saturating_add(1);
            }
        }
        events = events.saturating_add(deliver(system)?);
    }
    Ok(completed)
}

/// A machine with this many cores.
fn machine(alloc: Global, cores: u32) -> Option<System> {
    System::new(alloc, Config { cores, ..ONE_CORE }, Memory::new(alloc)).ok()
}

/// Opens the machines and drives the last; the number of events asked for, which it made. `None`, too, if a completion
/// wasn't recorded.
pub(crate) fn measure(alloc: Global, [events, cores, words, machines]: [u32; 4]) -> Option<u64> {
    for _opened in 1..machines {
        let _machine = machine(alloc, cores)?;
    }
    let mut system = machine(alloc, cores)?;
    let completed = drive(&mut system, u64::from(events), u64::from(words)).ok()?;
    if system.records().len() as u64 != completed {
        return None;
    }
    Some(u64::from(events))
}

/// Checks no records on an opening memory of `words` words, and opens a machine of `banks` banks with it (one, if that
/// is 0); the value of its last word.
pub(crate) fn opened(alloc: Global, [words, banks, _, _]: [u32; 4]) -> Option<u64> {
    let mut memory = Memory::new(alloc);
    for word in 0..u64::from(words) {
        memory.set(WordAddr::at(word), word).ok()?;
    }
    if check(alloc, &memory, &[], &[]).ok()? != Verdict::Legal {
        return None;
    }
    let config = Config {
        banks: banks.max(1),
        ..ONE_CORE
    };
    let system = System::new(alloc, config, memory).ok()?;
    Some(system.coherent(WordAddr::at(u64::from(words).saturating_sub(1))))
}
