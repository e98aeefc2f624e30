//! Events of one core or one bank: what they make of it and of the messages in flight.
ghost use Rattle.std.specs.Prelude.{◌≡◌, ◌<◌, ◌+◌, ◌++◌, ◌∷◌, [], ℕ, false, true, IfOk, IsOk, IsTrue, OnErr, length};
ghost use Rattle.std.specs.Prelude.{None, Some, vec_capacity};
ghost use Rattle.core_pts.specs.CoreTable.{advance, evict};
ghost use Rattle.network.specs.Flight.{SameNetwork};
ghost use Rattle.network.specs.Mail.{Mail};
ghost use Rattle.llc_bank.specs.BankTable as bank_table;
ghost use Rattle.interleaving_core.specs.LookUps.{is_request};
ghost use Rattle.machine_table.specs.Step.{advanced, asks, attempt_open, copy_evicted, entry_evicted};
ghost use Rattle.interleaving_core.specs.PartChanges.{answer_of, applied, applied_attempt, request_answer};
ghost use Rattle.interleaving_core.specs.Endpoints.{BackHasEndpoints, EvictedHasEndpoints, is_sent_back};

use crate::plain_answer::PlainAnswer;
use crate::reactions::send_message;
use core_pts::{Attempt, Core, nothing_completed_keeps};
use llc_bank::{Bank, Evict, EvictError};
use machine_table::{Answer, Refusal};
use network::{Body, InFlight, LineNo};
use physiological_order::{Op, Record};
use private_cache::{CacheError, CopyState};
use timestamp_manager::Exhausted;

/// A core of this number attempts its open operation, after `count` completed operations. It is too large to be placed
/// in line where it is called more than once, and `MachineState::attempt`, which is generic, is there more than once.
pub(crate) fn attempt_open_operation(
    core: &mut Core,
    flight: &mut InFlight,
    number: u32,
    count: usize,
) -> Answer
    requires number { core.old.number < flight.old.cores }
    requires banks { core.old.banks ≡ flight.old.banks }
    ensures done { (result, core.new, flight.new.mail) ≡ applied_attempt number count
        flight.old.capacity flight.old.mail core.old (attempt_open core.old core.old.open_op) }
    ensures set_up { SameNetwork flight.old flight.new }
{
    nothing_completed_keeps();
    let Some((op, _)) = core.open_op() else {
        return Answer::Idle;
    };
    let issued = core.issued();
    match core.attempt() {
        Err(Exhausted) => Answer::Refused(Refusal::Exhausted),
        Ok(Attempt::Completed(received, ts)) => Answer::Completed(Record {
            core: number,
            place: issued.saturating_sub(1),
            op,
            received,
            ts,
            number: count as u64,
        }),
        Ok(Attempt::NeedShared(pts, version)) => {
            answer_after_request(send_core_request(core, flight, &op, Body::ShReq { pts, version }))
        }
        Ok(Attempt::NeedExclusive(version)) => {
            answer_after_request(send_core_request(core, flight, &op, Body::ExReq { version }))
        }
        Ok(Attempt::NoRoom) => Answer::Refused(Refusal::NoRoom),
        Ok(Attempt::Waiting) => Answer::Waiting,
        Ok(Attempt::Idle) => Answer::Idle,
    }
}

// What an attempt is answered that needs a request, by whether it was sent.
#[inline(always)]
fn answer_after_request(sent: bool) -> Answer
    ensures { result ≡ request_answer sent }
{
    if sent {
        return Answer::Requested;
    }
    Answer::Refused(Refusal::NetworkFull)
}

/// A core asks the bank of an operation's line, if there is capacity for the request.
#[inline(always)]
fn send_core_request(core: &mut Core, flight: &mut InFlight, op: &Op, body: Body) -> bool
    requires request { IsTrue (is_request body) }
    requires number { core.old.number < flight.old.cores }
    requires banks { core.old.banks ≡ flight.old.banks }
    ensures done { (request_answer result, core.new, flight.new.mail) ≡ applied
        flight.old.capacity core.old flight.old.mail None (asks core.old op.now body) }
    ensures set_up { SameNetwork flight.old flight.new }
{
    if !flight.has_capacity() {
        return false;
    }
    let message = core.to_bank(core.line_of(*op), body);
    send_message(flight, message);
    core.requested();
    true
}

/// A core advances its time by one.
#[inline(always)]
pub(crate) fn advance_core_time(core: &mut Core) -> PlainAnswer
    ensures { (capacity : ℕ) (mail : Mail) → (answer_of result, core.new, mail) ≡
        applied capacity core.old mail None (advanced (advance core.old)) }
{
    match core.advance() {
        Err(Exhausted) => PlainAnswer::Refused(Refusal::Exhausted),
        Ok(()) => PlainAnswer::Advanced,
    }
}

/// Evicts a copy of a line from a core's cache, and returns the line if the core owns it.
#[inline(always)]
pub(crate) fn evict_copy(core: &mut Core, flight: &mut InFlight, line: LineNo) -> PlainAnswer
    requires endpoints { BackHasEndpoints flight.old.cores flight.old.banks
        (evict core.old line).0 }
    ensures done { (answer_of result, core.new, flight.new.mail) ≡ applied flight.old.capacity
        core.old flight.old.mail None (copy_evicted (evict core.old line)) }
    ensures set_up { SameNetwork flight.old flight.new }
{
    if !flight.has_capacity() {
        if eviction_returns_line(core, line) {
            return PlainAnswer::Refused(Refusal::NetworkFull);
        }
    }
    match core.evict(line) {
        Err(CacheError::NotHere) => PlainAnswer::Refused(Refusal::NoSuch),
        Err(CacheError::NoRoom) => PlainAnswer::Refused(Refusal::NoSuch),
        Err(CacheError::Pinned) => PlainAnswer::Refused(Refusal::Pinned),
        Ok(None) => PlainAnswer::Evicted,
        Ok(Some(back)) => {
            send_message(flight, back);
            PlainAnswer::Evicted
        }
    }
}

/// Evicts a line from a bank, or asks its owner to return it.
#[inline(always)]
pub(crate) fn evict_entry(bank: &mut Bank, flight: &mut InFlight, line: LineNo) -> PlainAnswer
    requires endpoints { EvictedHasEndpoints flight.old.cores flight.old.banks
        (bank_table.evict bank.old line).0 }
    ensures done { (answer_of result, bank.new, flight.new.mail) ≡ applied flight.old.capacity
        bank.old flight.old.mail None (entry_evicted (bank_table.evict bank.old line)) }
    ensures set_up { SameNetwork flight.old flight.new }
{
    if !flight.has_capacity() {
        if let Ok(Some(_)) = bank.evicts(line) {
            return PlainAnswer::Refused(Refusal::NetworkFull);
        }
    }
    match bank.evict(line) {
        Err(EvictError::NotHere) => PlainAnswer::Refused(Refusal::NoSuch),
        Err(EvictError::Busy) => PlainAnswer::Refused(Refusal::Busy),
        Ok(Evict::Clean) => PlainAnswer::Evicted,
        Ok(Evict::Stored(store)) => {
            send_message(flight, store);
            PlainAnswer::Evicted
        }
        Ok(Evict::Recalled(recall)) => {
            send_message(flight, recall);
            PlainAnswer::Recalled
        }
    }
}

// Whether an eviction of a line's copy sends it back.
fn eviction_returns_line(core: &Core, line: LineNo) -> bool
    ensures { result ≡ is_sent_back (evict core.now line).0 }
{
    let Some(copy) = core.copy(line) else {
        return false;
    };
    matches!(copy.state, CopyState::Exclusive) && !core.is_pinned(line)
}
