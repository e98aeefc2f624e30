//! Answers as texts write them: those to events, and the operations, records and events that look-ups answer.

use crate::replies::Reply;
use machine_table::{Answer, Event, Refusal};
use network::Counts;
use physiological_order::{Op, Record, Verdict};

pub fn yes_or_no(is_so: bool) -> &'static str {
    if is_so { "yes" } else { "no" }
}

/// The name of a refusal.
pub fn name_of_refusal(refusal: Refusal) -> &'static str {
    match refusal {
        Refusal::Busy => "Busy",
        Refusal::TooMany => "TooMany",
        Refusal::NoSuch => "NoSuch",
        Refusal::NoRoom => "NoRoom",
        Refusal::Pinned => "Pinned",
        Refusal::NetworkFull => "NetworkFull",
        Refusal::NoMemory => "NoMemory",
        Refusal::Exhausted => "Exhausted",
        Refusal::Stopped => "Stopped",
    }
}

fn put_access(kind: &str, byte: u64, value: Option<u64>, out: &mut Reply) {
    out.put_word(kind);
    out.put_address(byte);
    if let Some(value) = value {
        out.put_number(value);
    }
}

/// An operation, as `W 0x8 3`.
pub fn put_op(op: &Op, out: &mut Reply) {
    let byte = op.addr().byte();
    match *op {
        Op::Load(_) => put_access("R", byte, None, out),
        Op::Store(_, value) => put_access("W", byte, Some(value), out),
        Op::Swap(_, value) => put_access("S", byte, Some(value), out),
    }
}

/// Operations, joined by `; `, or `none`.
pub fn put_ops(ops: &[Op], out: &mut Reply) {
    for op in ops {
        out.begin_part();
        put_op(op, out);
    }
    out.put_word_if_empty("none");
}

/// An open operation, and whether its request is out; or `none`.
pub fn put_open_op(open: Option<(Op, bool)>, out: &mut Reply) {
    let Some((op, is_out)) = open else {
        return out.put_word("none");
    };
    put_op(&op, out);
    if is_out {
        out.put_word("requested");
    }
}

/// A record: core, place, operation, what was received, time and number.
pub fn put_record(record: &Record, out: &mut Reply) {
    out.put_number(u64::from(record.core));
    out.put_number(u64::from(record.place));
    put_op(&record.op, out);
    if let Some(received) = record.received {
        out.put_number(received);
    }
    out.put_number(record.ts);
    out.put_number(record.number);
}

/// The record at an index, or `none`.
pub fn put_record_at(records: &[Record], at: u64, out: &mut Reply) {
    match records.get(usize::try_from(at).unwrap_or(usize::MAX)) {
        Some(record) => put_record(record, out),
        None => out.put_word("none"),
    }
}

/// The numbers of records, in their order, or `none`.
pub fn put_record_numbers(records: &[Record], out: &mut Reply) {
    for record in records {
        out.put_number(record.number);
    }
    out.put_word_if_empty("none");
}

/// The verdict on records.
pub fn put_verdict(verdict: &Verdict, out: &mut Reply) {
    match *verdict {
        Verdict::Legal => out.put_word("legal"),
        Verdict::BadNumber(number) => out.put_named_number("bad number", number),
        Verdict::OutOfProgramOrder(number) => out.put_named_number("out of program order", number),
        Verdict::WrongValue(number) => out.put_named_number("wrong value", number),
    }
}

/// The name of an answer that has nothing else to write.
fn name_of_answer(answer: &Answer) -> &'static str {
    match answer {
        Answer::Completed(_) => "completed",
        Answer::Refused(_) => "refused",
        Answer::Issued => "issued",
        Answer::Requested => "requested",
        Answer::Waiting => "waiting",
        Answer::Idle => "idle",
        Answer::Delivered => "delivered",
        Answer::Dropped => "dropped",
        Answer::Held => "held",
        Answer::Started => "started",
        Answer::Evicted => "evicted",
        Answer::Recalled => "recalled",
        Answer::Advanced => "advanced",
    }
}

/// The answer to an event.
pub fn put_answer(answer: &Answer, out: &mut Reply) {
    out.put_word(name_of_answer(answer));
    match answer {
        Answer::Completed(record) => put_record(record, out),
        Answer::Refused(refusal) => out.put_word(name_of_refusal(*refusal)),
        _ => {}
    }
}

/// An event as it is called.
pub fn put_event(event: &Event, out: &mut Reply) {
    match *event {
        Event::Issue(core, op) => {
            out.put_named_number("issue", u64::from(core));
            put_op(&op, out);
        }
        Event::Attempt(core) => out.put_named_number("attempt", u64::from(core)),
        Event::Deliver(message) => {
            out.put_word("deliver");
            out.put_message_number(message.0);
        }
        Event::EvictCache(core, line) => {
            out.put_named_number("evict core", u64::from(core));
            out.put_line_address(line);
        }
        Event::EvictBank(bank, line) => {
            out.put_named_number("evict bank", u64::from(bank));
            out.put_line_address(line);
        }
        Event::Advance(core) => out.put_named_number("advance", u64::from(core)),
    }
}

/// How many messages of the counted kinds were sent.
pub fn put_message_counts(counts: &Counts, out: &mut Reply) {
    out.put_named_count("renewals", counts.renewals);
    out.put_named_count("upgrades", counts.upgrades);
    out.put_named_count("flushes", counts.flushes);
    out.put_named_count("write-backs", counts.write_backs);
}
