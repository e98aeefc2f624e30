//! All of a machine in one line.

use crate::looks::{put_copy_of_core, put_open_op_of_core};
use event_text::{
    NO_MEMORY, Reply, put_entry, put_line_words, put_message_counts, put_message_or_none, yes_or_no,
};
use interleaving_core::{LineNo, MsgNo, System};
use network::Words;
use physiological_order::WordAddr;

/// How many lines these words take.
fn count_lines_of_words(system: &System, words: u32) -> u64 {
    u64::from(words).div_ceil(u64::from(system.line_words()))
}

/// Writes the core's copies, and the victim for each line that has no place.
fn put_copies_and_victims(
    system: &System,
    core: u32,
    copies: &[LineNo],
    words: u32,
    out: &mut Reply,
) {
    for line in copies {
        out.put_text("; copy");
        out.put_line_address(*line);
        put_copy_of_core(system, core, *line, out);
    }
    for line in 0..count_lines_of_words(system, words) {
        if let Some(victim) = system.victim(core, LineNo(line)) {
            out.put_text("; victim");
            out.put_line_address(LineNo(line));
            out.put_line_address(victim);
        }
    }
}

fn put_core_state(system: &System, number: u32, copies: &[LineNo], words: u32, out: &mut Reply) {
    let Some(core) = system.core(number) else {
        return;
    };
    out.put_named_number("core", u64::from(number));
    out.put_named_number("time", core.pts());
    out.put_named_number("issued", u64::from(core.issued()));
    out.put_word("open");
    put_open_op_of_core(system, number, out);
    put_copies_and_victims(system, number, copies, words, out);
    out.put_text("; ");
}

/// Writes the words that DRAM has of each line, except lines whose words are all 0.
fn put_dram_lines(system: &System, bank: u32, words: u32, out: &mut Reply) {
    let Some(dram) = system.dram(bank) else {
        return;
    };
    for line in 0..count_lines_of_words(system, words) {
        let values = dram.load(LineNo(line));
        if values != Words::zeros() {
            out.put_word("dram");
            out.put_line_address(LineNo(line));
            put_line_words(&values, out);
            out.put_text("; ");
        }
    }
}

fn put_bank_state(system: &System, number: u32, words: u32, out: &mut Reply) {
    let Some(bank) = system.bank(number) else {
        return;
    };
    out.put_named_number("bank", u64::from(number));
    out.put_named_number("time", bank.memory_time());
    out.put_text("; ");
    for line in 0..count_lines_of_words(system, words) {
        let entry = bank.entry(LineNo(line));
        if entry.is_some() {
            out.put_word("entry");
            out.put_line_address(LineNo(line));
            put_entry(entry, out);
            out.put_text("; ");
        }
    }
    put_dram_lines(system, number, words, out);
}

fn put_messages_and_room(system: &System, messages: &[MsgNo], out: &mut Reply) {
    for message in messages {
        out.put_message_number(message.0);
        put_message_or_none(system.look(*message), out);
        if let Some((_, line)) = system.make_room(*message) {
            out.put_word("room");
            out.put_line_address(line);
        }
        out.put_text("; ");
    }
}

/// Writes the counts, the values of words, the owners of their lines, and whether the machine has stopped.
fn put_machine_totals(system: &System, words: u32, out: &mut Reply) {
    out.put_word("sent");
    put_message_counts(&system.counts(), out);
    out.put_text("; words");
    for word in 0..words {
        out.put_number(system.coherent(WordAddr::at(u64::from(word))));
    }
    out.put_text("; owners");
    for line in 0..count_lines_of_words(system, words) {
        out.put_number(u64::from(system.owners(LineNo(line))));
    }
    out.put_text("; stopped");
    out.put_word(yes_or_no(system.is_stopped()));
}

/// Writes that memory for a list of the answer can't be allocated.
fn put_no_memory(out: &mut Reply) {
    out.clear();
    out.put_word(NO_MEMORY);
}

/// Writes all of the machine, with the values of this many words.
pub(crate) fn put_machine_state(system: &System, words: u32, out: &mut Reply) {
    for core in 0..system.cores() {
        let Ok(copies) = system.copies(core) else {
            return put_no_memory(out);
        };
        put_core_state(system, core, &copies, words, out);
    }
    for bank in 0..system.banks() {
        put_bank_state(system, bank, words, out);
    }
    let Ok(messages) = system.in_flight() else {
        return put_no_memory(out);
    };
    put_messages_and_room(system, &messages, out);
    put_machine_totals(system, words, out);
}
