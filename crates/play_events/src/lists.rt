//! Lists that a machine gives in two ways, and their comparison.

use event_text::{NO_MEMORY, Reply};
use interleaving_core::{LineNo, MsgNo, System};
use std::alloc::{AllocError, Global};

/// The answer if two ways of asking differ.
pub(crate) const DIFFER: &str = "lists differ";

/// The result of two ways.
#[derive(Drop)]
enum Found {
    Same(Vec<LineNo>),
    Differ,
    NoMemory,
}

/// Writes the lines.
fn put_compared_lines(found: Result<Found, AllocError>, out: &mut Reply) {
    match found {
        Ok(Found::Same(lines)) => out.put_lines(lines.as_slice()),
        Ok(Found::Differ) => out.put_word(DIFFER),
        Ok(Found::NoMemory) => out.put_word(NO_MEMORY),
        Err(_) => out.note_no_memory(),
    }
}

/// Lines that were found, if they are these.
fn compare_lines(found: Vec<LineNo>, lines: &[LineNo]) -> Found {
    if found.as_slice() == lines {
        Found::Same(found)
    } else {
        Found::Differ
    }
}

/// The lines of a list, but those of the core's open operation.
fn lines_without_open_op(
    alloc: Global,
    system: &System,
    core: u32,
    lines: &[LineNo],
) -> Result<Vec<LineNo>, AllocError> {
    let mut open = None;
    if let Some((op, _)) = system.open_op(core) {
        open = Some(op.word() / u64::from(system.line_words()));
    }
    let mut left = Vec::new(alloc);
    for line in lines {
        if open != Some(line.0) {
            left.push(*line)?;
        }
    }
    Ok(left)
}

/// The copies that may be evicted: one by one, and as all copies but that of the open operation.
fn evictable_copies(alloc: Global, system: &System, core: u32) -> Result<Found, AllocError> {
    let Ok(copies) = system.copies(core) else {
        return Ok(Found::NoMemory);
    };
    let wanted = lines_without_open_op(alloc, system, core, &copies)?;
    let mut free = Vec::new(alloc);
    for at in 0..system.free_copies(core) {
        let Ok(line) = system.free_copy(core, at) else {
            return Ok(Found::NoMemory);
        };
        free.push(line)?;
    }
    Ok(compare_lines(free, &wanted))
}

/// A bank's settled entries: one by one, and at once.
fn settled_entries(alloc: Global, system: &System, bank: u32) -> Result<Found, AllocError> {
    let Ok(wanted) = system.entries(bank) else {
        return Ok(Found::NoMemory);
    };
    let mut entries = Vec::new(alloc);
    for at in 0..system.settled(bank) {
        let Ok(line) = system.entry(bank, at) else {
            return Ok(Found::NoMemory);
        };
        entries.push(line)?;
    }
    Ok(compare_lines(entries, &wanted))
}

/// Writes the copies of a core that may be evicted.
pub(crate) fn put_evictable_copies(alloc: Global, system: &System, core: u32, out: &mut Reply) {
    put_compared_lines(evictable_copies(alloc, system, core), out);
}

/// Writes the settled entries of a bank.
pub(crate) fn put_settled_entries(alloc: Global, system: &System, bank: u32, out: &mut Reply) {
    put_compared_lines(settled_entries(alloc, system, bank), out);
}

/// Writes the lines of a core's copies.
pub(crate) fn put_lines_of_copies(system: &System, core: u32, out: &mut Reply) {
    match system.copies(core) {
        Ok(lines) => out.put_lines(&lines),
        Err(_) => out.put_word(NO_MEMORY),
    }
}

/// The most messages that are compared one by one: the machine looks for each from the first one on.
const MOST: u32 = 4096;

/// Whether the message at a place is the one that is listed there.
fn is_message_listed(system: &System, messages: &[MsgNo], at: u32) -> bool {
    match (system.message(at), messages.get(at as usize)) {
        (Some(message), Some(listed)) => message == *listed,
        _ => false,
    }
}

/// Whether the first messages one by one, and the last, are those of a list, and there is none past it.
fn are_messages_listed(system: &System, messages: &[MsgNo]) -> bool {
    let count = system.messages();
    if count as usize != messages.len() || system.message(count).is_some() {
        return false;
    }
    for at in 0..count.min(MOST) {
        if !is_message_listed(system, messages, at) {
            return false;
        }
    }
    count == 0 || is_message_listed(system, messages, count - 1)
}

/// Whether a list that has a number already is filled with these, and then once more without another allocation.
fn is_list_refilled(
    system: &System,
    list: &mut Vec<MsgNo>,
    messages: &[MsgNo],
) -> Result<bool, AllocError> {
    system.list_in_flight(list)?;
    let capacity = list.capacity();
    let are = list.as_slice() == messages;
    system.list_in_flight(list)?;
    Ok(are && list.as_slice() == messages && list.capacity() == capacity)
}

/// Writes the messages in flight: at once, one by one, and in a list that is there already.
pub(crate) fn put_messages_in_flight(
    alloc: Global,
    system: &System,
    out: &mut Reply,
) -> Result<(), AllocError> {
    let mut list = Vec::new(alloc);
    list.push(MsgNo(77))?;
    let Ok(messages) = system.in_flight() else {
        out.put_word(NO_MEMORY);
        return Ok(());
    };
    let Ok(are) = is_list_refilled(system, &mut list, &messages) else {
        out.put_word(NO_MEMORY);
        return Ok(());
    };
    if are && are_messages_listed(system, &messages) {
        put_message_numbers(&messages, out);
    } else {
        out.put_word(DIFFER);
    }
    Ok(())
}

fn put_message_numbers(messages: &[MsgNo], out: &mut Reply) {
    for message in messages {
        out.put_message_number(message.0);
    }
    out.put_word_if_empty("none");
}
