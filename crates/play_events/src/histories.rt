//! What the records of a machine show.

use event_text::{NO_MEMORY, Reply, opening_memory_of, put_record_numbers, put_verdict};
use interleaving_core::System;
use physiological_order::{Op, Verdict, WordAddr, arrange, check, stale_hits};
use std::alloc::{AllocError, Global};

/// The verdict on a machine's records, which opened with these words.
fn verdict_on_records(
    alloc: Global,
    system: &System,
    words: &[(WordAddr, u64)],
) -> Result<Verdict, AllocError> {
    let _inside: Option<Op> = None;
    let opening = opening_memory_of(alloc, words)?;
    let mut issued = Vec::new(alloc);
    for core in 0..system.cores() {
        issued.push(Vec::from_slice(alloc, system.issued(core))?)?;
    }
    check(alloc, &opening, issued.as_slice(), system.records())
}

/// Writes that verdict.
pub(crate) fn put_verdict_on_records(
    alloc: Global,
    system: &System,
    words: &[(WordAddr, u64)],
    out: &mut Reply,
) {
    match verdict_on_records(alloc, system, words) {
        Ok(verdict) => put_verdict(&verdict, out),
        Err(_) => out.put_word(NO_MEMORY),
    }
}

/// Writes how many of the loads are stale hits.
pub(crate) fn put_stale_hits(alloc: Global, system: &System, out: &mut Reply) {
    match stale_hits(alloc, system.records()) {
        Ok(count) => out.put_number(count as u64),
        Err(_) => out.put_word(NO_MEMORY),
    }
}

/// Writes the numbers of the records in the order of their times.
pub(crate) fn put_arranged_numbers(alloc: Global, system: &System, out: &mut Reply) {
    match arrange(alloc, system.records()) {
        Ok(records) => put_record_numbers(records.as_slice(), out),
        Err(_) => out.put_word(NO_MEMORY),
    }
}
