//! Runs whose counts were worked out by hand, from docs/COUNTS.md and docs/PROTOCOL.md.
use event_counts::{CoreCounts, Counter, KindCounts, PartCounts};
use interleaving_core::{Config, Event, LineNo, MsgNo, System};
use physiological_order::{Memory, Op, WordAddr};
use std::alloc::{AllocError, Global};
use std::test::Fail;

// Two cores with one way each, a bank, lines of one word, and leases of three.
const TWO_CORES: Config = Config {
    cores: 2,
    banks: 1,
    sets: 1,
    ways: 1,
    bank_sets: 1,
    bank_ways: 4,
    line_words: 1,
    lease: 3,
    messages: 16,
    opening_time: 0,
    private_write: false,
};

fn load(core: u32, word: u64) -> Event {
    Event::Issue(core, Op::Load(WordAddr::at(word % 8)))
}

fn store(core: u32, word: u64) -> Event {
    Event::Issue(core, Op::Store(WordAddr::at(word % 8), 7))
}

fn deliver(number: u64) -> Event {
    Event::Deliver(MsgNo(number))
}

// What is expected: the cores and the bank, and the deliveries that were held and dropped.
#[derive(Drop)]
struct Wanted {
    cores: [CoreCounts; 2],
    bank: PartCounts,
    held: u64,
    dropped: u64,
}

const NO_CORE: CoreCounts = CoreCounts::NONE;

const NO_PART: PartCounts = PartCounts::NONE;

const NO_KINDS: KindCounts = KindCounts::NONE;

// The machine makes an event, and the counter counts it; an error if an allocation failed.
fn count(counter: &mut Counter, system: &mut System, event: &Event) -> Result<(), AllocError> {
    counter.prepare(system, event)?;
    let plain = system.step_plain(*event);
    counter.see(system, event, &plain);
    Ok(())
}

// The counts of a machine that has just opened and made these events; `None` if an allocation failed.
fn counted(
    alloc: Global,
    system: &mut System,
    events: &[Event],
    every: Option<u64>,
) -> Option<Counter> {
    let mut counter = Counter::new(alloc, system.cores(), system.banks(), every).ok()?;
    for event in events {
        if count(&mut counter, system, event).is_err() {
            return None;
        }
    }
    Some(counter)
}

// Whether a run of these events is counted so.
fn is_counted(alloc: Global, events: &[Event], wanted: &Wanted) -> Option<bool> {
    let mut system = System::new(alloc, TWO_CORES, Memory::new(alloc)).ok()?;
    let counter = counted(alloc, &mut system, events, None)?;
    let counts = counter.counts();
    let are_parts = counts.cores() == wanted.cores.as_slice()
        && counts.banks() == [wanted.bank].as_slice();
    let are_numbers = counts.events() == events.len() as u64
        && counts.held() == wanted.held
        && counts.dropped() == wanted.dropped;
    Some(are_parts && are_numbers)
}

// The run of docs/COUNTS.md, event by event. While the bank loads the line, the request is delivered once more, and
// held; an attempt finds that it waits, and counts nowhere.
#[test]
fn a_first_store_is_counted(rt: HostRuntime) {
    let events = [
        store(0, 0),
        Event::Attempt(0),
        deliver(0),
        deliver(0),
        Event::Attempt(0),
        deliver(1),
        deliver(2),
        deliver(0),
        deliver(3),
        Event::Attempt(0),
    ];
    let sent = KindCounts {
        ex_req: 1,
        ex_rep: 1,
        ..NO_KINDS
    };
    let wanted = Wanted {
        cores: [
            CoreCounts {
                stores: 1,
                cold: 1,
                last_time: 1,
                part: PartCounts { sent, ..NO_PART },
                ..NO_CORE
            },
            NO_CORE,
        ],
        bank: PartCounts {
            held: 1,
            sent: KindCounts {
                dram_ld: 1,
                dram_ld_rep: 1,
                ..sent
            },
            ..NO_PART
        },
        held: 1,
        dropped: 0,
    };
    assert_eq!(rt; is_counted(rt.alloc(), &events, &wanted), Some(true));
}

// Core 1 reads a word, core 0 stores to it, core 1 hits under its lease up to 3, advances to 4, and needs a request:
// the bank has core 0 write the line back. It sends core 1 the new words, while that has its old copy.
#[test]
fn an_ended_lease_and_a_write_back_are_counted(rt: HostRuntime) {
    let events = [
        load(1, 0),
        Event::Attempt(1),
        deliver(0),
        deliver(1),
        deliver(2),
        deliver(0),
        deliver(3),
        Event::Attempt(1),
        store(0, 0),
        Event::Attempt(0),
        deliver(4),
        deliver(5),
        Event::Attempt(0),
        load(1, 0),
        Event::Attempt(1),
        Event::Advance(1),
        Event::Advance(1),
        Event::Advance(1),
        Event::Advance(1),
        load(1, 0),
        Event::Attempt(1),
        deliver(6),
        deliver(7),
        deliver(8),
        deliver(6),
        deliver(9),
        Event::Attempt(1),
    ];
    let wanted = Wanted {
        cores: [
            CoreCounts {
                stores: 1,
                cold: 1,
                last_time: 4,
                part: PartCounts {
                    sent: KindCounts {
                        ex_req: 1,
                        ex_rep: 1,
                        wb_req: 1,
                        wb_rep: 1,
                        ..NO_KINDS
                    },
                    ..NO_PART
                },
                ..NO_CORE
            },
            CoreCounts {
                loads: 3,
                hits: 1,
                cold: 1,
                ended: 1,
                reloads: 1,
                last_time: 4,
                part: PartCounts {
                    sent: KindCounts {
                        sh_req: 2,
                        sh_rep: 2,
                        ..NO_KINDS
                    },
                    ..NO_PART
                },
                ..NO_CORE
            },
        ],
        bank: PartCounts {
            sent: KindCounts {
                sh_req: 2,
                sh_rep: 2,
                ex_req: 1,
                ex_rep: 1,
                wb_req: 1,
                wb_rep: 1,
                dram_ld: 1,
                dram_ld_rep: 1,
                ..NO_KINDS
            },
            ..NO_PART
        },
        held: 0,
        dropped: 0,
    };
    assert_eq!(rt; is_counted(rt.alloc(), &events, &wanted), Some(true));
}

// Core 0 reads a word and stores to it. The bank recalls the line, and core 0 evicts its copy first, which returns the
// line: so the recall is dropped. The bank evicts the entry, which is dirty.
#[test]
fn evictions_and_a_dropped_recall_are_counted(rt: HostRuntime) {
    let events = [
        load(0, 0),
        Event::Attempt(0),
        deliver(0),
        deliver(1),
        deliver(2),
        deliver(0),
        deliver(3),
        Event::Attempt(0),
        store(0, 0),
        Event::Attempt(0),
        deliver(4),
        deliver(5),
        Event::Attempt(0),
        Event::EvictBank(0, LineNo(0)),
        Event::EvictCache(0, LineNo(0)),
        deliver(6),
        deliver(7),
        Event::EvictBank(0, LineNo(0)),
        deliver(8),
        deliver(9),
    ];
    let sent = KindCounts {
        sh_req: 1,
        sh_rep: 1,
        ex_req: 1,
        upgrade_rep: 1,
        flush_req: 1,
        flush_rep: 1,
        ..NO_KINDS
    };
    let wanted = Wanted {
        cores: [
            CoreCounts {
                loads: 1,
                stores: 1,
                cold: 1,
                shared: 1,
                returns: 1,
                last_time: 4,
                part: PartCounts {
                    evictions: 1,
                    dropped: 1,
                    sent,
                    ..NO_PART
                },
                ..NO_CORE
            },
            NO_CORE,
        ],
        bank: PartCounts {
            evictions: 1,
            sent: KindCounts {
                dram_ld: 1,
                dram_ld_rep: 1,
                dram_st: 1,
                dram_st_rep: 1,
                ..sent
            },
            ..NO_PART
        },
        held: 0,
        dropped: 1,
    };
    assert_eq!(rt; is_counted(rt.alloc(), &events, &wanted), Some(true));
}

// What the words of one line come to at core 0: it reads one, evicts its copy, reads it again, stores to it, and the
// bank recalls the line. The core reads the word once more first, so the recall is held. It returns the line, and then
// needs it again.
fn lost_twice() -> [Event; 30] {
    [
        load(0, 0),
        Event::Attempt(0),
        deliver(0),
        deliver(1),
        deliver(2),
        deliver(0),
        deliver(3),
        Event::Attempt(0),
        Event::EvictCache(0, LineNo(0)),
        load(0, 0),
        Event::Attempt(0),
        deliver(4),
        deliver(5),
        Event::Attempt(0),
        store(0, 0),
        Event::Attempt(0),
        deliver(6),
        deliver(7),
        Event::Attempt(0),
        Event::EvictBank(0, LineNo(0)),
        load(0, 0),
        deliver(8),
        Event::Attempt(0),
        deliver(8),
        deliver(9),
        load(0, 0),
        Event::Attempt(0),
        deliver(10),
        deliver(11),
        Event::Attempt(0),
    ]
}

// A copy that was evicted, and one that was recalled, are missed for these causes.
#[test]
fn lost_copies_are_causes(rt: HostRuntime) {
    let sent = KindCounts {
        sh_req: 3,
        sh_rep: 3,
        ex_req: 1,
        upgrade_rep: 1,
        flush_req: 1,
        flush_rep: 1,
        ..NO_KINDS
    };
    let wanted = Wanted {
        cores: [
            CoreCounts {
                loads: 4,
                stores: 1,
                hits: 1,
                cold: 1,
                evicted: 1,
                recalled: 1,
                shared: 1,
                last_time: 4,
                part: PartCounts {
                    evictions: 1,
                    held: 1,
                    sent,
                    ..NO_PART
                },
                ..NO_CORE
            },
            NO_CORE,
        ],
        bank: PartCounts {
            sent: KindCounts {
                dram_ld: 1,
                dram_ld_rep: 1,
                ..sent
            },
            ..NO_PART
        },
        held: 1,
        dropped: 0,
    };
    assert_eq!(rt; is_counted(rt.alloc(), &lost_twice(), &wanted), Some(true));
}

// What is expected of a row: the events, and the counts of core 0.
#[derive(Clone, Copy)]
struct Row {
    events: u64,
    core: CoreCounts,
}

// After two of the five operations, and after four: the fifth is in no row.
const ROWS: [Row; 2] = [
    Row {
        events: 14,
        core: CoreCounts {
            loads: 2,
            cold: 1,
            evicted: 1,
            part: PartCounts {
                evictions: 1,
                sent: KindCounts {
                    sh_req: 2,
                    sh_rep: 2,
                    ..NO_KINDS
                },
                ..NO_PART
            },
            ..NO_CORE
        },
    },
    Row {
        events: 23,
        core: CoreCounts {
            loads: 3,
            stores: 1,
            hits: 1,
            cold: 1,
            evicted: 1,
            shared: 1,
            last_time: 4,
            part: PartCounts {
                evictions: 1,
                held: 1,
                sent: KindCounts {
                    sh_req: 2,
                    sh_rep: 2,
                    ex_req: 1,
                    upgrade_rep: 1,
                    flush_req: 1,
                    ..NO_KINDS
                },
                ..NO_PART
            },
            ..NO_CORE
        },
    },
];

// Whether the rows of that run are as expected, with the number of rows.
fn right_rows(alloc: Global) -> Option<(bool, usize)> {
    let mut system = System::new(alloc, TWO_CORES, Memory::new(alloc)).ok()?;
    let counter = counted(alloc, &mut system, &lost_twice(), Some(2))?;
    let rows = counter.rows();
    let mut is_right = true;
    for (row, wanted) in rows.iter().zip(ROWS.iter()) {
        if row.events() != wanted.events || row.cores().first() != Some(&wanted.core) {
            is_right = false;
        }
    }
    Some((is_right, rows.len()))
}

#[test]
fn rows_are_taken_as_operations_complete(rt: HostRuntime) {
    assert_eq!(rt; right_rows(rt.alloc()), Some((true, 2)));
}
