//! Reads calls from their words.

use crate::calls::{BankLook, Call, CoreLook, MailLook, OfCore, OfSeat, RunLook};
use crate::numbers::MOST;
use event_text::{Cause, Seat, Words, read_opening};
use std::alloc::Global;

/// A call of any seat.
fn seat_call(seat: Seat, call: OfSeat) -> Call {
    match seat {
        Seat::Core(number) => Call::Core(number, OfCore::Seat(call)),
        Seat::Bank(number) => Call::Bank(number, call),
    }
}

/// A look at the messages of any seat.
fn mail_look_call(seat: Seat, look: MailLook) -> Call {
    match seat {
        Seat::Core(number) => Call::CoreLook(number, CoreLook::Mail(look)),
        Seat::Bank(number) => Call::BankLook(number, BankLook::Mail(look)),
    }
}

fn read_issue(words: &mut Words<'_>) -> Result<Call, Cause> {
    let core = words.next_small_number()?;
    Ok(Call::Core(core, OfCore::Issue(words.next_operation()?)))
}

fn read_evict(words: &mut Words<'_>) -> Result<Call, Cause> {
    let seat = words.next_seat()?;
    Ok(seat_call(seat, OfSeat::Evict(words.next_line_number()?)))
}

/// A call that changes a seat, or looks something up.
fn read_seat_action(name: &str, words: &mut Words<'_>) -> Result<Call, Cause> {
    match name {
        "issue" => read_issue(words),
        "attempt" => Ok(Call::Core(words.next_small_number()?, OfCore::Attempt)),
        "advance" => Ok(Call::Core(words.next_small_number()?, OfCore::Advance)),
        "evict" => read_evict(words),
        "put" => Ok(seat_call(words.next_seat()?, OfSeat::Put)),
        "take" => Ok(seat_call(words.next_seat()?, OfSeat::Take)),
        "serve" => Ok(seat_call(words.next_seat()?, OfSeat::Serve)),
        "turn" => Ok(seat_call(words.next_seat()?, OfSeat::Turn)),
        _ => read_part_look(name, words),
    }
}

/// A look at a line by a core.
fn read_line_look_of_core(name: &str, words: &mut Words<'_>) -> Result<Call, Cause> {
    let core = words.next_small_number()?;
    let line = words.next_line_number()?;
    let look = match name {
        "victim" => CoreLook::Victim(line),
        _ => CoreLook::Copy(line),
    };
    Ok(Call::CoreLook(core, look))
}

/// A look at a line by a bank.
fn read_line_look_of_bank(name: &str, words: &mut Words<'_>) -> Result<Call, Cause> {
    let bank = words.next_small_number()?;
    let line = words.next_line_number()?;
    let look = match name {
        "entry" => BankLook::Entry(line),
        _ => BankLook::Dram(line),
    };
    Ok(Call::BankLook(bank, look))
}

fn read_room_look(words: &mut Words<'_>) -> Result<Call, Cause> {
    match words.next_seat()? {
        Seat::Bank(bank) => Ok(Call::BankLook(bank, BankLook::Room)),
        Seat::Core(_) => Err(Cause::Bank),
    }
}

/// A look-up of a core or a bank, or of others.
fn read_part_look(name: &str, words: &mut Words<'_>) -> Result<Call, Cause> {
    match name {
        "open" => Ok(Call::CoreLook(words.next_small_number()?, CoreLook::Open)),
        "time" => Ok(Call::CoreLook(words.next_small_number()?, CoreLook::Time)),
        "issued" => Ok(Call::CoreLook(words.next_small_number()?, CoreLook::Issued)),
        "victim" | "copy" => read_line_look_of_core(name, words),
        "memory-time" => Ok(Call::BankLook(words.next_small_number()?, BankLook::Time)),
        "entry" | "dram" => read_line_look_of_bank(name, words),
        "room" => read_room_look(words),
        _ => read_seat_look(name, words),
    }
}

fn read_held_look(words: &mut Words<'_>) -> Result<Call, Cause> {
    let seat = words.next_seat()?;
    Ok(mail_look_call(seat, MailLook::Held(words.next_small_number()?)))
}

fn read_state_look(words: &mut Words<'_>) -> Result<Call, Cause> {
    let seat = words.next_seat()?;
    let count = words.next_small_number()?;
    Ok(match seat {
        Seat::Core(core) => Call::CoreLook(core, CoreLook::State(count)),
        Seat::Bank(bank) => Call::BankLook(bank, BankLook::State(count)),
    })
}

/// A look-up of a seat's messages, of all of a seat, or of a closed run.
fn read_seat_look(name: &str, words: &mut Words<'_>) -> Result<Call, Cause> {
    match name {
        "hand" => Ok(mail_look_call(words.next_seat()?, MailLook::Hand)),
        "held" => read_held_look(words),
        "places" => Ok(mail_look_call(words.next_seat()?, MailLook::Places)),
        "outbox" => Ok(mail_look_call(words.next_seat()?, MailLook::Outbox)),
        "cursor" => Ok(mail_look_call(words.next_seat()?, MailLook::Cursor)),
        "stopped" => Ok(mail_look_call(words.next_seat()?, MailLook::Stopped)),
        "state" => read_state_look(words),
        "records" => read_records_look(words),
        "sent" => read_sent_look(words),
        _ => Ok(Call::RunLook(read_run_look(name, words)?)),
    }
}

/// A look-up of a closed run alone.
fn read_run_look(name: &str, words: &mut Words<'_>) -> Result<RunLook, Cause> {
    match name {
        "record" => Ok(RunLook::Record(words.next_number()?)),
        "stale" => Ok(RunLook::Stale),
        "check" => Ok(RunLook::Check),
        "arranged" => Ok(RunLook::Arranged),
        "word" => Ok(RunLook::Word(words.next_address()?)),
        "owners" => Ok(RunLook::Owners(words.next_line_number()?)),
        "slot" => Ok(RunLook::Slot(words.next_number()?)),
        "slots" => Ok(RunLook::Slots),
        _ => Err(Cause::Call),
    }
}

/// How many records the closed run has, or the core that is named.
fn read_records_look(words: &mut Words<'_>) -> Result<Call, Cause> {
    let Some(word) = words.next_word() else {
        return Ok(Call::RunLook(RunLook::Records));
    };
    let core = words.small_number_of_word(word)?;
    Ok(Call::CoreLook(core, CoreLook::Records))
}

/// What all seats of the closed run sent, or the seat that is named.
fn read_sent_look(words: &mut Words<'_>) -> Result<Call, Cause> {
    match words.next_word() {
        None => Ok(Call::RunLook(RunLook::Sent)),
        Some(kind) => Ok(mail_look_call(words.seat_from_word(kind)?, MailLook::Sent)),
    }
}

fn read_numbers_opening(words: &mut Words<'_>) -> Result<Call, Cause> {
    let drawers = words.next_small_number()?;
    if drawers == 0 || drawers > MOST {
        return Err(Cause::Drawers);
    }
    Ok(Call::Numbers(drawers))
}

/// What words ask for.
pub(crate) fn read_seats_call(alloc: Global, words: &mut Words<'_>) -> Result<Call, Cause> {
    let call = match words.required_word(Cause::Call)? {
        "seats" => Call::Seats(read_opening(alloc, words)?),
        "numbers" => read_numbers_opening(words)?,
        "draw" => Call::Draw(words.next_small_number()?),
        "drawn" => Call::Drawn(words.next_small_number()?),
        "close" => Call::Close,
        name => read_seat_action(name, words)?,
    };
    words.expect_end()?;
    Ok(call)
}
