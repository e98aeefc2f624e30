//! Look-ups of a closed machine.
ghost use Rattle.closed_machine.specs.RunParts.{Parts};

use crate::answers::NO_SEAT;
use crate::calls::{BankLook, Call, CoreLook, RunLook};
use crate::looks::{look_at_bank, look_at_core};
use crate::views::{find_closed_bank, find_closed_core};
use event_text::{
    NO_MACHINE, NO_MEMORY, Reply, put_message_counts, put_message_or_none, put_ops, put_record_at,
    put_record_numbers, put_verdict,
};
use mailboxes::Run;
use physiological_order::{Op, Record, arrange, check, stale_hits};
use std::alloc::{AllocError, Global};

/// The message that lies in a slot, or `none`.
fn put_message_in_slot(run: &Run, slot: u64, out: &mut Reply) {
    if slot >= run.slots.len() as u64 {
        return out.put_word("none");
    }
    put_message_or_none(run.slots[slot as usize].as_ref(), out);
}

fn put_arranged_numbers(alloc: Global, records: &[Record], out: &mut Reply) {
    match arrange(alloc, records) {
        Ok(arranged) => put_record_numbers(arranged.as_slice(), out),
        Err(AllocError) => out.put_word(NO_MEMORY),
    }
}

fn put_stale_hits(alloc: Global, run: &Run, out: &mut Reply)
    requires { Parts run.now }
{
    match stale_hits(alloc, run.records()) {
        Ok(count) => out.put_number(count),
        Err(AllocError) => out.put_word(NO_MEMORY),
    }
}

/// What the cores were issued, by core.
fn issued_ops_by_core(alloc: Global, run: &Run) -> Result<Vec<Vec<Op>>, AllocError>
    requires { Parts run.now }
{
    let mut issued = Vec::new(alloc);
    for core in 0..run.set_up.config.cores {
        issued.push(Vec::from_slice(alloc, run.issued(core))?)?;
    }
    Ok(issued)
}

fn put_verdict_on_run(alloc: Global, run: &Run, out: &mut Reply)
    requires { Parts run.now }
{
    let Ok(issued) = issued_ops_by_core(alloc, run) else {
        return out.note_no_memory();
    };
    match check(alloc, &run.set_up.memory, issued.as_slice(), run.records()) {
        Ok(verdict) => put_verdict(&verdict, out),
        Err(AllocError) => out.put_word(NO_MEMORY),
    }
}

/// Looks up the run alone.
fn look_at_run(alloc: Global, run: &Run, look: &RunLook, out: &mut Reply)
    requires { Parts run.now }
{
    match look {
        RunLook::Records => out.put_number(run.records().len() as u64),
        RunLook::Record(number) => put_record_at(run.records(), *number, out),
        RunLook::Stale => put_stale_hits(alloc, run, out),
        RunLook::Check => put_verdict_on_run(alloc, run, out),
        RunLook::Arranged => put_arranged_numbers(alloc, run.records(), out),
        RunLook::Word(addr) => out.put_number(run.value(*addr)),
        RunLook::Owners(line) => out.put_number(u64::from(run.owners(*line))),
        RunLook::Sent => put_message_counts(&run.counts(), out),
        RunLook::Slot(slot) => put_message_in_slot(run, *slot, out),
        RunLook::Slots => out.put_number(run.slots.len() as u64),
    }
}

/// Looks up the core of a number, as it was at the close.
fn look_at_closed_core(run: &Run, number: u32, look: &CoreLook, out: &mut Reply)
    requires { Parts run.now }
{
    let Some(view) = find_closed_core(run.cores.as_slice(), number) else {
        return out.put_word(NO_SEAT);
    };
    match look {
        CoreLook::Issued => put_ops(run.issued(number), out),
        look => look_at_core(number, &view, look, out),
    }
}

/// Looks up the bank of a number, as it was at the close.
fn look_at_closed_bank(run: &Run, number: u32, look: &BankLook, out: &mut Reply) {
    let seat = u64::from(run.set_up.config.cores) + u64::from(number);
    let Some(view) = find_closed_bank(run.banks.as_slice(), seat) else {
        return out.put_word(NO_SEAT);
    };
    look_at_bank(number, &view, look, out)
}

/// Writes the answer to a call after the close.
pub(crate) fn put_closed_answer(alloc: Global, run: &Run, call: &Call, out: &mut Reply)
    requires { Parts run.now }
{
    match call {
        Call::RunLook(look) => look_at_run(alloc, run, look, out),
        Call::CoreLook(number, look) => look_at_closed_core(run, *number, look, out),
        Call::BankLook(number, look) => look_at_closed_bank(run, *number, look, out),
        _ => out.put_word(NO_MACHINE),
    }
}
