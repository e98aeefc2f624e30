//! What lines ask for: an opening, events, programs and drives, and look-ups.

use event_text::{
    Cause, Opening, Part, Seat, Turn, Words, read_opening, read_reopening_words, table_row_of_name,
    text_after_prefix,
};
use interleaving_core::Event;
use physiological_order::{Op, WordAddr};
use programs::Step;
use schedules::Policy;
use std::alloc::Global;

/// What a line asks for.
#[derive(Drop)]
pub(crate) enum Call {
    Machine(Opening),
    Reopen(Vec<(WordAddr, u64)>),
    Event(Event),
    Run(Vec<Event>),
    /// A core's program.
    Program(u32, Vec<Step>),
    /// A schedule, and the most rounds or turns.
    Drive(Policy, u32),
    Made(u32),
    /// The counts of the last drive.
    Counts,
    /// Whether the machine is to keep lines in rising order.
    Keep(bool),
    Look(Look),
}

/// What a call looks up, the core, bank or count that follows its name, and the number of what follows that.
#[derive(Clone, Copy)]
pub(crate) struct Look {
    pub what: What,
    pub number: u32,
    pub at: u64,
}

/// What can be looked up.
#[derive(Clone, Copy)]
pub(crate) enum What {
    Owners,
    Word,
    Sent,
    Records,
    Record,
    Stale,
    Check,
    Arranged,
    Issued,
    Open,
    Victim,
    Room,
    Copies,
    Free,
    Entries,
    Flight,
    Time,
    Copy,
    MemoryTime,
    Entry,
    Dram,
    Message,
    Order,
    Shape,
    Stopped,
    /// The whole machine, with the values of this many words.
    State,
}

/// By the names of look-ups: whether a small number follows them, and what follows that.
const LOOKS: &[(&str, (What, bool, Part))] = &[
    ("records", (What::Records, false, Part::Nothing)),
    ("record", (What::Record, false, Part::Number)),
    ("stale", (What::Stale, false, Part::Nothing)),
    ("check", (What::Check, false, Part::Nothing)),
    ("arranged", (What::Arranged, false, Part::Nothing)),
    ("issued", (What::Issued, true, Part::Nothing)),
    ("open", (What::Open, true, Part::Nothing)),
    ("sent", (What::Sent, false, Part::Nothing)),
    ("owners", (What::Owners, false, Part::Line)),
    ("copies", (What::Copies, true, Part::Nothing)),
    ("free", (What::Free, true, Part::Nothing)),
    ("entries", (What::Entries, true, Part::Nothing)),
    ("flight", (What::Flight, false, Part::Nothing)),
    ("shape", (What::Shape, false, Part::Nothing)),
    ("stopped", (What::Stopped, false, Part::Nothing)),
    ("state", (What::State, true, Part::Nothing)),
    ("message", (What::Message, false, Part::Message)),
    ("room", (What::Room, false, Part::Message)),
    ("time", (What::Time, true, Part::Nothing)),
    ("memory-time", (What::MemoryTime, true, Part::Nothing)),
    ("victim", (What::Victim, true, Part::Line)),
    ("copy", (What::Copy, true, Part::Line)),
    ("entry", (What::Entry, true, Part::Line)),
    ("dram", (What::Dram, true, Part::Line)),
];

/// The event that a name and the next words call for.
fn read_event(name: &str, words: &mut Words<'_>) -> Result<Event, Cause> {
    match name {
        "issue" => {
            let core = words.next_small_number()?;
            Ok(Event::Issue(core, words.next_operation()?))
        }
        "attempt" => Ok(Event::Attempt(words.next_small_number()?)),
        "deliver" => Ok(Event::Deliver(words.next_message_number()?)),
        "evict" => match words.next_seat()? {
            Seat::Core(core) => Ok(Event::EvictCache(core, words.next_line_number()?)),
            Seat::Bank(bank) => Ok(Event::EvictBank(bank, words.next_line_number()?)),
        },
        "advance" => Ok(Event::Advance(words.next_small_number()?)),
        _ => Err(Cause::Event),
    }
}

/// The event that a text calls for, and no more.
fn read_listed_event(mut words: Words<'_>) -> Result<Event, Cause> {
    let name = words.required_word(Cause::Event)?;
    let event = read_event(name, &mut words)?;
    words.expect_end()?;
    Ok(event)
}

/// The events of a list.
fn read_event_list(alloc: Global, turn: &Turn<'_>, line_words: u32) -> Result<Vec<Event>, Cause> {
    let _inside: Option<Op> = None;
    let mut events = Vec::new(alloc);
    for part in turn.call_parts() {
        events.push(read_listed_event(Words::new(part, turn.turn, line_words))?)?;
    }
    Ok(events)
}

/// A step that a text names, and how often it is repeated.
fn read_repeated_step(mut words: Words<'_>) -> Result<(u32, Step), Cause> {
    let word = words.required_word(Cause::Operation)?;
    let (times, word) = match words.number_of_word(word) {
        Ok(_) => (
            words.small_number_of_word(word)?,
            words.required_word(Cause::Operation)?,
        ),
        Err(_) => (1, word),
    };
    if word == "A" {
        words.expect_end()?;
        return Ok((times, Step::Advance));
    }
    let op = words.operation_from_word(word)?;
    words.expect_end()?;
    Ok((times, Step::Op(op)))
}

/// Adds a step this many times.
fn push_step_times(steps: &mut Vec<Step>, times: u32, step: &Step) -> Result<(), Cause> {
    let _inside: Option<Op> = None;
    for _ in 0..times {
        steps.push(*step)?;
    }
    Ok(())
}

/// Adds the steps that a text names.
fn push_read_steps(steps: &mut Vec<Step>, words: Words<'_>) -> Result<(), Cause> {
    let _inside: Option<Op> = None;
    let (times, step) = read_repeated_step(words)?;
    push_step_times(steps, times, &step)
}

/// A core and its steps; a program without words has none.
fn read_program(alloc: Global, turn: &Turn<'_>) -> Result<Call, Cause> {
    let mut steps = Vec::new(alloc);
    let mut parts = turn.call_parts();
    let first = parts.next().unwrap_or("").trim();
    let mut words = Words::new(first, turn.turn, 1);
    let name = words.required_word(Cause::Number)?;
    let core = words.small_number_of_word(name)?;
    let rest = text_after_prefix(first, name);
    if !rest.is_empty() {
        push_read_steps(&mut steps, Words::new(rest, turn.turn, 1))?;
    }
    for part in parts {
        push_read_steps(&mut steps, Words::new(part, turn.turn, 1))?;
    }
    Ok(Call::Program(core, steps))
}

/// The look-up that a name and the next words ask for.
fn read_look_up(name: &str, words: &mut Words<'_>) -> Result<Look, Cause> {
    if name == "word" {
        let at = words.next_address()?.byte();
        return Ok(Look {
            what: What::Word,
            number: 0,
            at,
        });
    }
    let (what, has_number, next) = table_row_of_name(LOOKS, name).ok_or(Cause::Call)?;
    let number = if has_number {
        words.next_small_number()?
    } else {
        0
    };
    let at = words.next_part(next)?;
    Ok(Look { what, number, at })
}

/// What a name and the next words ask for.
fn read_named_call(alloc: Global, name: &str, words: &mut Words<'_>) -> Result<Call, Cause> {
    match name {
        "machine" => Ok(Call::Machine(read_opening(alloc, words)?)),
        "reopen" => Ok(Call::Reopen(read_reopening_words(alloc, words)?)),
        "issue" | "attempt" | "deliver" | "evict" | "advance" => {
            Ok(Call::Event(read_event(name, words)?))
        }
        "rounds" => Ok(Call::Drive(Policy::Rounds, words.next_small_number()?)),
        "fair-rounds" => Ok(Call::Drive(Policy::FairRounds, words.next_small_number()?)),
        "seed" => {
            let seed = words.next_number()?;
            Ok(Call::Drive(Policy::Seed(seed), words.next_small_number()?))
        }
        "made" => Ok(Call::Made(words.next_small_number()?)),
        "counts" => Ok(Call::Counts),
        "order" => read_order_call(words),
        _ => Ok(Call::Look(read_look_up(name, words)?)),
    }
}

/// Whether the machine is to keep lines in order, or the look-up whether it does.
fn read_order_call(words: &mut Words<'_>) -> Result<Call, Cause> {
    match words.next_word() {
        Some("keep") => Ok(Call::Keep(true)),
        Some("forget") => Ok(Call::Keep(false)),
        Some(_) => Err(Cause::KeepOrForget),
        None => Ok(Call::Look(Look {
            what: What::Order,
            number: 0,
            at: 0,
        })),
    }
}

/// What a line asks for, for a machine with this many words in a line.
pub(crate) fn read_call(alloc: Global, turn: &Turn<'_>, line_words: u32) -> Result<Call, Cause> {
    let mut words = turn.call_words(line_words);
    match words.next_word().unwrap_or("") {
        "run" => Ok(Call::Run(read_event_list(alloc, turn, line_words)?)),
        "program" => read_program(alloc, turn),
        name => {
            let call = read_named_call(alloc, name, &mut words)?;
            words.expect_end()?;
            Ok(call)
        }
    }
}
