//! All of a seat in one line.

use crate::calls::MailLook;
use crate::looks::look_at_mail;
use crate::views::{BankView, CoreView, Mail};
use event_text::{Reply, put_copy, put_entry, put_line_words, put_message, put_open_op};
use network::{LineNo, Words};

/// How many lines this many words have.
fn count_lines_of_words(words: u32, out: &Reply) -> u64 {
    u64::from(words.div_ceil(out.line_words.max(1)))
}

/// The name of what follows, and its line.
fn put_name_and_line(name: &str, line: LineNo, out: &mut Reply) {
    out.put_text(name);
    out.put_line_address(line);
}

fn put_copies(view: &CoreView<'_>, out: &mut Reply) {
    let Ok(lines) = view.core.lines() else {
        return out.note_no_memory();
    };
    for line in &lines {
        let copy = view.core.copy(*line);
        if copy.is_some() {
            put_name_and_line("; copy", *line, out);
            put_copy(copy, out);
        }
    }
}

fn put_victims(view: &CoreView<'_>, words: u32, out: &mut Reply) {
    for line in 0..count_lines_of_words(words, out) {
        if let Some(victim) = view.core.victim(LineNo(line)) {
            put_name_and_line("; victim", LineNo(line), out);
            out.put_line_address(victim);
        }
    }
}

fn put_entries(view: &BankView<'_>, words: u32, out: &mut Reply) {
    for line in 0..count_lines_of_words(words, out) {
        let entry = view.bank.entry(LineNo(line));
        if entry.is_some() {
            put_name_and_line("; entry", LineNo(line), out);
            put_entry(entry, out);
        }
    }
}

/// The words that DRAM has of each line, except lines whose words are all 0.
fn put_dram_lines(view: &BankView<'_>, words: u32, out: &mut Reply) {
    for line in 0..count_lines_of_words(words, out) {
        let values = view.dram.load(LineNo(line));
        if values != Words::zeros() {
            put_name_and_line("; dram", LineNo(line), out);
            put_line_words(&values, out);
        }
    }
}

/// The answer of a look-up, after its name.
fn put_mail_look(name: &str, mail: &Mail<'_>, look: MailLook, out: &mut Reply) {
    out.put_text(name);
    look_at_mail(mail, &look, out);
}

/// The messages of a seat; and of one that is open, where its next look begins, and whether it is stopped.
fn put_seat_messages(mail: &Mail<'_>, out: &mut Reply) {
    put_mail_look("; hand", mail, MailLook::Hand, out);
    put_mail_look("; places", mail, MailLook::Places, out);
    for at in 0..256 {
        let Some(message) = mail.inbox.held(at) else {
            break;
        };
        out.put_text("; held");
        put_message(message, out);
    }
    put_mail_look("; outbox", mail, MailLook::Outbox, out);
    put_mail_look("; sent", mail, MailLook::Sent, out);
    if mail.open.is_some() {
        put_mail_look("; cursor", mail, MailLook::Cursor, out);
        put_mail_look("; stopped", mail, MailLook::Stopped, out);
    }
}

/// All of the seat of the core of this number.
pub(crate) fn put_core_seat(number: u32, view: &CoreView<'_>, words: u32, out: &mut Reply) {
    out.put_named_number("core", u64::from(number));
    out.put_named_number("time", view.core.pts());
    out.put_named_number("issued", u64::from(view.core.issued()));
    out.put_word("open");
    put_open_op(view.core.open_op(), out);
    put_copies(view, out);
    put_victims(view, words, out);
    put_seat_messages(&view.mail, out);
}

/// All of the seat of the bank of this number.
pub(crate) fn put_bank_seat(number: u32, view: &BankView<'_>, words: u32, out: &mut Reply) {
    out.put_named_number("bank", u64::from(number));
    out.put_named_number("time", view.bank.memory_time());
    put_entries(view, words, out);
    put_dram_lines(view, words, out);
    put_seat_messages(&view.mail, out);
    if let Some(open) = view.mail.open {
        out.put_text("; room");
        out.put_line_or_none(open.room);
    }
}
