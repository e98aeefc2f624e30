//! Calls of open seats.
ghost use Rattle.mailboxes.specs.Seats.{AllBankSeats, AllCoreSeats, IsBankSeat, IsCoreSeat};

use crate::answers::{
    NO_SEAT, Says, put_call_answer, says_of_eviction, says_of_served, says_of_turn,
    says_unless_refused,
};
use crate::calls::{BankLook, Call, CoreLook, OfCore, OfSeat};
use crate::looks::{look_at_bank, look_at_core};
use crate::views::{Mail, view_open_bank, view_open_core};
use event_text::{NO_MACHINE, Reply, put_open_op};
use machine_table::Answer;
use mailboxes::{BankSeat, CoreSeat, Machine};

/// What a core's seat answers to a call of all seats.
fn call_core_seat(core: &mut CoreSeat, machine: &Machine, call: &OfSeat) -> Says
    requires { IsCoreSeat machine.now core.old }
    ensures { IsCoreSeat machine.now core.new }
{
    match call {
        OfSeat::Evict(line) => says_unless_refused(Answer::Evicted, core.evict(machine, *line)),
        OfSeat::Put => Says::Puts(core.put(machine)),
        OfSeat::Take => Says::Takes(core.take(machine)),
        OfSeat::Serve => says_of_served(core.serve(machine)),
        OfSeat::Turn => says_of_turn(core.turn(machine)),
    }
}

/// What a core's seat answers to a call.
fn call_core(core: &mut CoreSeat, machine: &Machine, call: &OfCore) -> Says
    requires { IsCoreSeat machine.now core.old }
    ensures { IsCoreSeat machine.now core.new }
{
    match call {
        OfCore::Issue(op) => says_unless_refused(Answer::Issued, core.issue(machine, *op)),
        OfCore::Attempt => Says::Answers(core.attempt(machine)),
        OfCore::Advance => says_unless_refused(Answer::Advanced, core.advance(machine)),
        OfCore::Seat(call) => call_core_seat(core, machine, call),
    }
}

/// What a bank's seat answers to a call.
fn call_bank(bank: &mut BankSeat, machine: &Machine, call: &OfSeat) -> Says
    requires { IsBankSeat machine.now bank.old }
    ensures { IsBankSeat machine.now bank.new }
{
    match call {
        OfSeat::Evict(line) => says_of_eviction(bank.evict(machine, *line)),
        OfSeat::Put => Says::Puts(bank.put(machine)),
        OfSeat::Take => Says::Takes(bank.take(machine)),
        OfSeat::Serve => says_of_served(bank.serve(machine)),
        OfSeat::Turn => says_of_turn(bank.turn(machine)),
    }
}

/// What the core's seat at an index answers to a call.
fn call_core_at(machine: &Machine, cores: &mut Vec<CoreSeat>, at: usize, call: &OfCore) -> Says
    requires { AllCoreSeats machine.now cores.old.items }
    ensures { AllCoreSeats machine.now cores.new.items }
{
    if at >= cores.len() {
        return Says::NoSeat;
    }
    call_core(&mut cores[at], machine, call)
}

/// What the bank's seat at an index answers to a call.
fn call_bank_at(machine: &Machine, banks: &mut Vec<BankSeat>, at: usize, call: &OfSeat) -> Says
    requires { AllBankSeats machine.now banks.old.items }
    ensures { AllBankSeats machine.now banks.new.items }
{
    if at >= banks.len() {
        return Says::NoSeat;
    }
    call_bank(&mut banks[at], machine, call)
}

/// Looks up an open seat of a core.
fn look_at_core_seat(seat: &CoreSeat, number: u32, look: &CoreLook, out: &mut Reply) {
    let _inside: Option<Mail<'_>> = None;
    match look {
        CoreLook::Open => put_open_op(seat.open_op(), out),
        CoreLook::Victim(line) => out.put_line_or_none(seat.victim(*line)),
        look => look_at_core(number, &view_open_core(seat), look, out),
    }
}

/// Looks up the open seat of the core of a number.
fn look_at_open_core(cores: &Vec<CoreSeat>, number: u32, look: &CoreLook, out: &mut Reply) {
    let at = number as usize;
    if at >= cores.len() {
        return out.put_word(NO_SEAT);
    }
    look_at_core_seat(&cores[at], number, look, out)
}

/// Looks up an open seat of a bank.
fn look_at_bank_seat(seat: &BankSeat, number: u32, look: &BankLook, out: &mut Reply) {
    let _inside: Option<Mail<'_>> = None;
    look_at_bank(number, &view_open_bank(seat), look, out)
}

/// Looks up the open seat of the bank of a number.
fn look_at_open_bank(banks: &Vec<BankSeat>, number: u32, look: &BankLook, out: &mut Reply) {
    let at = number as usize;
    if at >= banks.len() {
        return out.put_word(NO_SEAT);
    }
    look_at_bank_seat(&banks[at], number, look, out)
}

/// Writes the answer to a call while the seats are open.
pub(crate) fn put_open_answer(
    machine: &Machine,
    cores: &mut Vec<CoreSeat>,
    banks: &mut Vec<BankSeat>,
    call: &Call,
    out: &mut Reply,
)
    requires cores { AllCoreSeats machine.now cores.old.items }
    requires banks { AllBankSeats machine.now banks.old.items }
    ensures cores { AllCoreSeats machine.now cores.new.items }
    ensures banks { AllBankSeats machine.now banks.new.items }
{
    match call {
        Call::Core(number, call) => {
            put_call_answer(&call_core_at(machine, cores, *number as usize, call), out)
        }
        Call::Bank(number, call) => {
            put_call_answer(&call_bank_at(machine, banks, *number as usize, call), out)
        }
        Call::CoreLook(number, look) => look_at_open_core(cores, *number, look, out),
        Call::BankLook(number, look) => look_at_open_bank(banks, *number, look, out),
        _ => out.put_word(NO_MACHINE),
    }
}
