//! Drives a machine, event by event: a core stores to a word that no cache has.
ghost use Rattle.std.specs.Prelude.{◌≡◌, IfOk, [], slice_index_or};
ghost use Rattle.std.specs.FinMap.{empty};
ghost use Rattle.physiological_order.specs.Order.{flat, Legal};

use interleaving_core::{Answer, Config, Event, MsgNo, OpenError, System};
use physiological_order::{Memory, Op, WordAddr};
use std::alloc::Global;

/// Two cores and one bank, which open at time 0, with lines of one word and a lease of 10.
pub const TWO_CORES: Config = Config {
    cores: 2,
    banks: 1,
    sets: 64,
    ways: 4,
    bank_sets: 256,
    bank_ways: 8,
    line_words: 1,
    lease: 10,
    messages: 4096,
    opening_time: 0,
    private_write: false,
};

/// Core 0 stores 1 to word 0. Answers the machine afterwards, and the answer to each event. With any answers the
/// records are a legal history, as they are after any events.
pub fn first_store(alloc: Global) -> Result<(System, Vec<Answer>), OpenError>
    ensures { IfOk result (λ ran. Legal (flat empty)
        (λ core. slice_index_or ran.0.issued core []) ran.0.records) }
{
    let mut system = System::new(alloc, TWO_CORES, Memory::new(alloc))?;
    let events = [
        Event::Issue(0, Op::Store(WordAddr::at(0), 1)), // Issued
        Event::Attempt(0), // Requested: message 0 asks the bank for the line
        Event::Deliver(MsgNo(0)), // Started: message 1 asks DRAM, and message 0 stays in flight
        Event::Deliver(MsgNo(1)), // Delivered: message 2 brings the line from DRAM
        Event::Deliver(MsgNo(2)), // Delivered: the bank has the line
        Event::Deliver(MsgNo(0)), // Delivered: message 3 grants the line
        Event::Deliver(MsgNo(3)), // Delivered: core 0 owns the line
        Event::Attempt(0), // Completed: at time 1, with completion number 0
    ];
    let Ok(answers) = system.run(&events) else {
        return Err(OpenError::NoMemory);
    };
    let _legal = system.records();
    Ok((system, answers))
}
