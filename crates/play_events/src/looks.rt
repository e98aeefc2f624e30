//! Look-ups of a machine.

use crate::calls::{Look, What};
use crate::histories::{put_arranged_numbers, put_stale_hits, put_verdict_on_records};
use crate::lists::{
    DIFFER, put_evictable_copies, put_lines_of_copies, put_messages_in_flight, put_settled_entries,
};
use crate::states::put_machine_state;
use event_text::{
    Reply, put_copy, put_entry, put_line_words, put_message_counts, put_message_or_none,
    put_open_op, put_ops, put_record_at, yes_or_no,
};
use interleaving_core::{LineNo, MsgNo, System};
use physiological_order::WordAddr;
use std::alloc::Global;

fn put_number_or_none(number: Option<u64>, out: &mut Reply) {
    match number {
        Some(number) => out.put_number(number),
        None => out.put_word("none"),
    }
}

fn is_core_in_mask(cores: u64, core: u32) -> bool {
    core < 64 && cores >> core & 1 == 1
}

/// Writes a core's open operation, and whether its request is out; the machine must answer both in two ways alike.
pub(crate) fn put_open_op_of_core(system: &System, core: u32, out: &mut Reply) {
    let open = system.open_op(core);
    let wanted = match &open {
        Some((_, is_out)) => (false, !*is_out),
        None => (core < system.cores(), false),
    };
    if (
        is_core_in_mask(system.idle_cores(), core),
        is_core_in_mask(system.trying_cores(), core),
    ) == wanted
    {
        put_open_op(open, out);
    } else {
        out.put_word(DIFFER);
    }
}

fn put_room_for_message(system: &System, number: MsgNo, out: &mut Reply) {
    let Some((bank, line)) = system.make_room(number) else {
        return out.put_word("none");
    };
    out.put_named_number("bank", u64::from(bank));
    out.put_line_address(line);
}

fn time_of_core(system: &System, core: u32) -> Option<u64> {
    Some(system.core(core)?.pts())
}

fn memory_time_of_bank(system: &System, bank: u32) -> Option<u64> {
    Some(system.bank(bank)?.memory_time())
}

/// Writes a core's copy of a line.
pub(crate) fn put_copy_of_core(system: &System, core: u32, line: LineNo, out: &mut Reply) {
    match system.core(core) {
        Some(core) => put_copy(core.copy(line), out),
        None => out.put_word("none"),
    }
}

fn put_entry_of_bank(system: &System, bank: u32, line: LineNo, out: &mut Reply) {
    match system.bank(bank) {
        Some(bank) => put_entry(bank.entry(line), out),
        None => out.put_word("none"),
    }
}

fn put_dram_words(system: &System, bank: u32, line: LineNo, out: &mut Reply) {
    match system.dram(bank) {
        Some(dram) => put_line_words(&dram.load(line), out),
        None => out.put_word("none"),
    }
}

/// Writes the value of the word at a byte address.
fn put_coherent_value(system: &System, byte: u64, out: &mut Reply) {
    match WordAddr::new(byte) {
        Some(word) => out.put_number(system.coherent(word)),
        None => out.put_word("none"),
    }
}

fn put_machine_sizes(system: &System, out: &mut Reply) {
    out.put_named_number("cores", u64::from(system.cores()));
    out.put_named_number("banks", u64::from(system.banks()));
    out.put_named_number("line-words", u64::from(system.line_words()));
}

/// Writes whether the machine keeps lines in rising order.
pub(crate) fn put_order_kept(system: &System, out: &mut Reply) {
    out.put_word(if system.keeps_order() {
        "kept"
    } else {
        "not kept"
    });
}

/// Writes what a part of the machine has.
fn put_part_look_up(system: &System, look: &Look, out: &mut Reply) {
    let (number, line) = (look.number, LineNo(look.at));
    match look.what {
        What::Time => put_number_or_none(time_of_core(system, number), out),
        What::Copy => put_copy_of_core(system, number, line, out),
        What::MemoryTime => put_number_or_none(memory_time_of_bank(system, number), out),
        What::Entry => put_entry_of_bank(system, number, line, out),
        What::Dram => put_dram_words(system, number, line, out),
        What::Message => put_message_or_none(system.look(MsgNo(look.at)), out),
        What::Open => put_open_op_of_core(system, number, out),
        What::Victim => out.put_line_or_none(system.victim(number, line)),
        What::Room => put_room_for_message(system, MsgNo(look.at), out),
        _ => put_ops(system.issued(number), out),
    }
}

/// Writes what the machine as a whole has.
fn put_machine_look_up(system: &System, look: &Look, out: &mut Reply) {
    match look.what {
        What::Owners => out.put_number(u64::from(system.owners(LineNo(look.at)))),
        What::Word => put_coherent_value(system, look.at, out),
        What::Sent => put_message_counts(&system.counts(), out),
        What::Records => out.put_number(system.records().len() as u64),
        What::Record => put_record_at(system.records(), look.at, out),
        What::Order => put_order_kept(system, out),
        What::Shape => put_machine_sizes(system, out),
        What::Stopped => out.put_word(yes_or_no(system.is_stopped())),
        What::State => put_machine_state(system, look.number, out),
        _ => put_part_look_up(system, look, out),
    }
}

/// Writes what a look-up finds in a machine that opened with these words.
pub(crate) fn put_look_up(
    alloc: Global,
    system: &System,
    words: &[(WordAddr, u64)],
    look: &Look,
    out: &mut Reply,
) {
    match look.what {
        What::Copies => put_lines_of_copies(system, look.number, out),
        What::Free => put_evictable_copies(alloc, system, look.number, out),
        What::Entries => put_settled_entries(alloc, system, look.number, out),
        What::Flight => {
            if put_messages_in_flight(alloc, system, out).is_err() {
                out.note_no_memory();
            }
        }
        What::Stale => put_stale_hits(alloc, system, out),
        What::Check => put_verdict_on_records(alloc, system, words, out),
        What::Arranged => put_arranged_numbers(alloc, system, out),
        _ => put_machine_look_up(system, look, out),
    }
}
