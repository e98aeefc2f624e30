//! A pass: the seats of a worker have turns, one seat after the other.
ghost use Rattle.std.specs.Prelude.{◌≡◌, ℕ, ◌≤◌, length};
ghost use Rattle.std.specs.List.{zip};
ghost use Rattle.mailboxes.specs.Seats.{AllBankSeats, AllCoreSeats, IsBankSeat, IsCoreSeat};
ghost use Rattle.thread_driver.specs.Given.{IsBankTurn, IsCoreTurn};
ghost use Rattle.thread_driver.specs.Teams.{InARow, IsWhole, PassGiven, ends_all, is_followed, row_end};
ghost use Rattle.thread_driver.specs.Playing.{AreAhead, IsAhead};

use crate::bank_turns::any_bank_turn;
use crate::core_turns::core_turn;
use crate::told::{QUIET, Told, told_by_both};
use mailboxes::{BankSeat, CoreSeat, Machine};
use programs::program::Program;
use shared_jobs::{Gate, begin, end};

// The most turns of a seat in a row.
const IN_A_ROW: u32 = 16;

/// Whether no worker goes on after this.
pub(crate) fn ends_all_turns(told: &Told) -> bool
    ensures { result ≡ ends_all told.now }
{
    told.no_memory || told.is_exhausted
}

// Whether a seat has another turn at once: this one made progress, and didn't end all.
fn has_another_turn(told: &Told) -> bool
    ensures { result ≡ is_followed told.now }
{
    told.has_progressed && !ends_all_turns(told)
}

// How many turns a seat has had at most, after `had` of them, before the next seat has its own.
fn row_end(had: u32, limit: u32) -> u32
    ensures { result ≡ row_end limit had }
{
    had.saturating_add(IN_A_ROW).min(limit)
}

// The turns of a core's seat in a row, each between the calls of the gate, and how many it has had then.
fn core_turns_in_row<P: Program, G: Gate>(
    machine: &Machine,
    gate: &G,
    seat: &mut CoreSeat,
    program: &mut P,
    had: u32,
    limit: u32,
) -> (Told, u32)
    requires seat { IsCoreSeat machine.now seat.old }
    requires ahead { IsAhead P.acts seat.old program.old }
    ensures { InARow (IsCoreTurn P.acts machine.now) (row_end limit had)
        had (seat.old, program.old) result.1 result.0 (seat.new, program.new) }
{
    let most = row_end(had, limit);
    let mut all = QUIET;
    let mut has = had;
    for turn in had..most {
        let begun = begin(gate, u64::from(seat.number()), u64::from(turn));
        let told = core_turn(machine, &begun, seat, program);
        end(gate, begun);
        all = told_by_both(all, told);
        has = turn + 1;
        if !has_another_turn(&told) {
            return (all, has);
        }
    }
    (all, has)
}

/// The turns of cores' seats, seat after seat, in a row of each. The list says how many each has had, of at most
/// `limit`. After one that ends all there is no other.
pub(crate) fn core_pass<P: Program, G: Gate>(
    machine: &Machine,
    gate: &G,
    cores: &mut Vec<CoreSeat>,
    programs: &mut Vec<P>,
    had: &mut [u32],
    limit: u32,
) -> Told
    requires seats { AllCoreSeats machine.now cores.old.items }
    requires ahead { AreAhead P.acts cores.old.items programs.old.items }
    requires counts { length cores.old.items ≤ length had.old }
    ensures seats { AllCoreSeats machine.now cores.new.items }
    ensures ahead { AreAhead P.acts cores.new.items programs.new.items }
    ensures long { length cores.new.items ≡ length cores.old.items }
    ensures turns { (turns : ℕ) × IsWhole turns cores.old.items result ×
        PassGiven (IsCoreTurn P.acts machine.now) limit turns had.old
        (zip cores.old.items programs.old.items) result had.new
        (zip cores.new.items programs.new.items) }
{
    let mut all = QUIET;
    for i in 0..cores.len() {
        if ends_all_turns(&all) {
            break;
        }
        let before = had[i];
        let (told, has) = core_turns_in_row(
            machine,
            gate,
            &mut cores[i],
            &mut programs[i],
            before,
            limit,
        );
        had[i] = has;
        all = told_by_both(all, told);
    }
    all
}

// The turns of a bank's seat in a row, likewise, fair or not.
fn bank_turns_in_row<G: Gate>(
    machine: &Machine,
    gate: &G,
    seat: &mut BankSeat,
    had: u32,
    limit: u32,
    fair: bool,
) -> (Told, u32)
    requires { IsBankSeat machine.now seat.old }
    ensures { InARow (IsBankTurn fair machine.now) (row_end limit had)
        had seat.old result.1 result.0 seat.new }
{
    let most = row_end(had, limit);
    let mut all = QUIET;
    let mut has = had;
    for turn in had..most {
        let number = u64::from(seat.number());
        let begun = begin(gate, number, u64::from(turn));
        let told = any_bank_turn(machine, &begun, seat, fair);
        end(gate, begun);
        all = told_by_both(all, told);
        has = turn + 1;
        if !has_another_turn(&told) {
            return (all, has);
        }
    }
    (all, has)
}

/// The turns of banks' seats, likewise, fair or not.
pub(crate) fn bank_pass<G: Gate>(
    machine: &Machine,
    gate: &G,
    banks: &mut Vec<BankSeat>,
    had: &mut [u32],
    limit: u32,
    fair: bool,
) -> Told
    requires seats { AllBankSeats machine.now banks.old.items }
    requires counts { length banks.old.items ≤ length had.old }
    ensures seats { AllBankSeats machine.now banks.new.items }
    ensures turns { (turns : ℕ) × IsWhole turns banks.old.items result ×
        PassGiven (IsBankTurn fair machine.now) limit turns had.old banks.old.items result had.new
        banks.new.items }
{
    let mut all = QUIET;
    for i in 0..banks.len() {
        if ends_all_turns(&all) {
            break;
        }
        let before = had[i];
        let (told, has) = bank_turns_in_row(machine, gate, &mut banks[i], before, limit, fair);
        had[i] = has;
        all = told_by_both(all, told);
    }
    all
}
