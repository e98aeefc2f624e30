//! A machine without history does as one with it: both get the same events. A store completes in each round, so the
//! numbers of the records and the words' values are known.
use interleaving_core::{Answer, Config, Event, System, ToldHistory};
use physiological_order::{Memory, Op, Record, WordAddr};
use std::alloc::Global;

const TWO_CORES: Config = Config {
    cores: 2,
    banks: 1,
    sets: 1,
    ways: 4,
    bank_sets: 1,
    bank_ways: 4,
    line_words: 1,
    lease: 10,
    messages: 64,
    opening_time: 0,
    private_write: false,
};

/// Two thousand stores, by both cores in turn: the store of a number writes it to one of four words.
const ROUNDS: u64 = 2000;

/// Whether this is the machine's last record.
fn is_last(told: &System<ToldHistory>, done: &Record) -> bool {
    match told.last_record() {
        Some(last) => last == done,
        None => false,
    }
}

/// Whether an event completes an operation, the same on both machines; `None` if they answer it otherwise.
fn completes(kept: &mut System, told: &mut System<ToldHistory>, event: &Event) -> Option<bool> {
    // The check finds what an answer holds only where the function names the types.
    let _inside: (Option<Op>, Option<Record>) = (None, None);
    let answer = kept.step(*event);
    let other = told.step(*event);
    if other != answer {
        return None;
    }
    match &answer {
        Answer::Completed(done) => {
            if is_last(told, done) {
                Some(true)
            } else {
                None
            }
        },
        _ => Some(false),
    }
}

/// An attempt of a core, and the delivery of a message in flight: the turns take all of them one after the other.
/// Whether the attempt completed the operation.
fn turn(kept: &mut System, told: &mut System<ToldHistory>, core: u32, number: u32) -> Option<bool> {
    if completes(kept, told, &Event::Attempt(core))? {
        return Some(true);
    }
    let messages = kept.messages();
    if messages > 0 {
        if let Some(message) = kept.message(number % messages) {
            completes(kept, told, &Event::Deliver(message))?;
        }
    }
    Some(false)
}

/// The store of a number.
fn store(round: u64) -> Op {
    Op::Store(WordAddr::at(round % 4), round)
}

/// Whether the last record is that of the store of its number.
fn is_stored(told: &System<ToldHistory>, round: u64) -> bool {
    match told.last_record() {
        Some(last) => last.number == round && last.op == store(round),
        None => false,
    }
}

/// The store of a number is issued and completed, as the record of that number, on both machines.
fn is_made(kept: &mut System, told: &mut System<ToldHistory>, round: u64) -> Option<()> {
    let core = (round % 2) as u32;
    completes(kept, told, &Event::Issue(core, store(round)))?;
    for number in 0..64 {
        if turn(kept, told, core, number)? {
            return if is_stored(told, round) {
                Some(())
            } else {
                None
            };
        }
    }
    None
}

/// All stores complete, and each word has the value of its last one.
fn all_complete(kept: &mut System, told: &mut System<ToldHistory>) -> Option<()> {
    for round in 0..ROUNDS {
        is_made(kept, told, round)?;
    }
    for word in 0..4 {
        let addr = WordAddr::at(word);
        if told.coherent(addr) != ROUNDS - 4 + word || kept.coherent(addr) != told.coherent(addr) {
            return None;
        }
    }
    Some(())
}

/// Also once both machines are opened again.
fn are_alike(alloc: Global) -> Option<()> {
    let mut kept = System::new(alloc, TWO_CORES, Memory::new(alloc)).ok()?;
    let mut told = System::without_history(alloc, TWO_CORES, Memory::new(alloc)).ok()?;
    all_complete(&mut kept, &mut told)?;
    let mut kept = kept.reopen(Memory::new(alloc)).ok()?;
    let mut told = told.reopen(Memory::new(alloc)).ok()?;
    if told.last_record().is_some() {
        return None;
    }
    all_complete(&mut kept, &mut told)
}

#[test]
fn a_machine_without_history_does_the_same(rt: HostRuntime) {
    assert!(rt; are_alike(rt.alloc()).is_some());
}
