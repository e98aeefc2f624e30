//! Look-ups of a seat.

use crate::calls::{BankLook, CoreLook, MailLook};
use crate::states::{put_bank_seat, put_core_seat};
use crate::views::{BankView, CoreView, Mail};
use event_text::{
    NO_MACHINE, Reply, put_copy, put_entry, put_line_words, put_message_counts,
    put_message_or_none, put_open_op, put_ops, yes_or_no,
};

/// Looks up a seat's messages.
pub(crate) fn look_at_mail(mail: &Mail<'_>, look: &MailLook, out: &mut Reply) {
    match look {
        MailLook::Hand => put_message_or_none(mail.inbox.hand(), out),
        MailLook::Held(at) => put_message_or_none(mail.inbox.held(*at), out),
        MailLook::Places => out.put_number(u64::from(mail.inbox.places())),
        MailLook::Outbox => out.put_number(mail.outbox.len() as u64),
        MailLook::Sent => put_message_counts(&mail.outbox.counts(), out),
        MailLook::Cursor => match mail.open {
            Some(open) => out.put_number(open.cursor as u64),
            None => out.put_word(NO_MACHINE),
        },
        MailLook::Stopped => match mail.open {
            Some(open) => out.put_word(yes_or_no(open.is_stopped)),
            None => out.put_word(NO_MACHINE),
        },
    }
}

/// Looks up the seat of the core of this number.
pub(crate) fn look_at_core(number: u32, view: &CoreView<'_>, look: &CoreLook, out: &mut Reply) {
    match look {
        CoreLook::Open => put_open_op(view.core.open_op(), out),
        CoreLook::Victim(line) => out.put_line_or_none(view.core.victim(*line)),
        CoreLook::Time => out.put_number(view.core.pts()),
        CoreLook::Copy(line) => put_copy(view.core.copy(*line), out),
        CoreLook::Issued => put_ops(view.issued, out),
        CoreLook::Records => out.put_number(view.records as u64),
        CoreLook::Mail(look) => look_at_mail(&view.mail, look, out),
        CoreLook::State(words) => put_core_seat(number, view, *words, out),
    }
}

/// Looks up the seat of the bank of this number.
pub(crate) fn look_at_bank(number: u32, view: &BankView<'_>, look: &BankLook, out: &mut Reply) {
    match look {
        BankLook::Time => out.put_number(view.bank.memory_time()),
        BankLook::Entry(line) => put_entry(view.bank.entry(*line), out),
        BankLook::Dram(line) => put_line_words(&view.dram.load(*line), out),
        BankLook::Room => match view.mail.open {
            Some(open) => out.put_line_or_none(open.room),
            None => out.put_word(NO_MACHINE),
        },
        BankLook::Mail(look) => look_at_mail(&view.mail, look, out),
        BankLook::State(words) => put_bank_seat(number, view, *words, out),
    }
}
