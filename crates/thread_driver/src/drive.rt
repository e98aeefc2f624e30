//! Seats that workers drive, and the result.
ghost use Rattle.std.specs.Prelude.{◌≡◌, ◌≢◌, ◌⊎◌, ◌<◌, ◌≤◌, true, false, IfOk, OnErr, length};
ghost use Rattle.std.specs.List.{list_any};
ghost use Rattle.programs.specs.declared.ends.End.TheVariants as end;
ghost use Rattle.mailboxes.specs.Seats.{AllBankSeats, AllCoreSeats, AreAll};
ghost use Rattle.stop_flags.specs.Signalers.{IsSignalerOf};
ghost use Rattle.thread_driver.specs.Given.{AtMost, Exactly, SeatsGiven};
ghost use Rattle.thread_driver.specs.Playing.{AreAhead};
ghost use Rattle.thread_driver.specs.Shifts.{AreBanksInOrder, AreCoresInOrder, AreOver, AreServed, NoneOpen};
ghost use Rattle.thread_driver.specs.Shifts.{Ran, RefusedAtOnce, end_told};
ghost use Rattle.thread_driver.specs.Teams.{AllWork, AreReady, IsReady, Works, ends_all};

use crate::counting::are_core_seats_over;
use crate::dealing::{deal_shift, disband_team, form_team, gather_shift, open_hands};
use crate::shift::Shift;
use crate::told::Told;
use crate::work::run_worker;
use crate::worker::{Rota, Worker};
use mailboxes::{BankSeat, CoreSeat, Machine};
use programs::End;
use programs::program::Program;
use seat_rule::laws::seats_are_few;
use seat_rule::parts::records_of_seats_are_counted;
use shared_jobs::Gate;
use std::alloc::{AllocError, Global};
use std::rt::Clock;
use std::thread;
use std::thread::Threads;
use stop_flags::{Signals, open_signals};

/// Gives the seats of a machine turns, by 1 to 16 workers: the calling thread, and others that end within the call.
/// Seat i, where cores come before banks, belongs to worker i modulo their number. Each turn is between the calls of
/// the gate. docs/SCHEDULES.md has the order within a turn. Each core has a program, which gives it its steps. At any
/// end, each core was issued what its program gave, in order, and the program received what each completed operation
/// did, in order. An operation that is still open is the program's next. Turns are all that seats are given, and each
/// has at most `turn_limit` of them; if the end is TurnsUsed, each has had all of these.
///
/// A worker goes on until all programs are done, each of its seats had `turn_limit` turns, or some seat lacked memory
/// or stopped. If memory for the workers can't be allocated, no turn is made, all is as it was given, and the end is
/// NoMemory. Otherwise it is AllDone exactly if no program has a next step and no core an open operation; else
/// NoMemory exactly if a turn was refused memory, then Exhausted exactly if a seat stopped in a turn, else TurnsUsed.
///
/// A worker whose thread can't be started works in the thread that was to start it, after that thread's own worker has
/// ended. Until then its seats have no turns, and messages to them wait. The others mostly use up their turns by then,
/// and the run ends at its limit. All seats and programs come back all the same.
pub fn drive_threads<R: Threads + Clock + Sync, P: Program + Send + Drop, G: Gate + Sync>(
    rt: &R,
    alloc: Global,
    machine: &Machine,
    cores: Vec<CoreSeat>,
    banks: Vec<BankSeat>,
    programs: Vec<P>,
    workers: u32,
    turn_limit: u32,
    gate: &G,
) -> Shift<P>
    requires cores { AreCoresInOrder machine.now cores.items × NoneOpen cores.items }
    requires banks { AreBanksInOrder machine.now banks.items }
    requires programs { length programs.items ≡ length cores.items }
    requires workers { (0 < workers) × (workers ≤ 16) }
    ensures cores { AreCoresInOrder machine.now result.cores.items }
    ensures banks { AreBanksInOrder machine.now result.banks.items }
    ensures whole { AreAll machine.now result.cores.items result.banks.items }
    ensures served { AreServed P.acts cores.items programs.items result.cores.items
        result.programs.items }
    ensures ended { RefusedAtOnce cores.items banks.items programs.items
        result.cores.items result.banks.items result.programs.items result.end
        ⊎ Ran P.acts machine.now false turn_limit cores.items banks.items programs.items
        result.cores.items result.banks.items result.programs.items result.end }
{
    drive_seats(
        rt, alloc, machine, cores, banks, programs, workers, turn_limit, false, gate,
    )
}

/// Gives the seats turns as `drive_threads` does; with `fair` each turn of a bank is a fair one (`fair_bank_turn`).
pub fn drive_seats<R: Threads + Clock + Sync, P: Program + Send + Drop, G: Gate + Sync>(
    rt: &R,
    alloc: Global,
    machine: &Machine,
    cores: Vec<CoreSeat>,
    banks: Vec<BankSeat>,
    programs: Vec<P>,
    workers: u32,
    turn_limit: u32,
    fair: bool,
    gate: &G,
) -> Shift<P>
    requires cores { AreCoresInOrder machine.now cores.items × NoneOpen cores.items }
    requires banks { AreBanksInOrder machine.now banks.items }
    requires programs { length programs.items ≡ length cores.items }
    requires workers { (0 < workers) × (workers ≤ 16) }
    ensures cores { AreCoresInOrder machine.now result.cores.items }
    ensures banks { AreBanksInOrder machine.now result.banks.items }
    ensures whole { AreAll machine.now result.cores.items result.banks.items }
    ensures served { AreServed P.acts cores.items programs.items result.cores.items
        result.programs.items }
    ensures ended { RefusedAtOnce cores.items banks.items programs.items
        result.cores.items result.banks.items result.programs.items result.end
        ⊎ Ran P.acts machine.now fair turn_limit cores.items banks.items programs.items
        result.cores.items result.banks.items result.programs.items result.end }
{
    records_of_seats_are_counted();
    seats_are_few();
    let mut shift = Shift {
        end: End::TurnsUsed,
        cores,
        banks,
        programs,
    };
    match drive_shift(
        rt, alloc, machine, &mut shift, workers, turn_limit, fair, gate,
    ) {
        Err(AllocError) => {
            shift.end = End::NoMemory;
            shift
        }
        Ok(told) => {
            shift.end = end_of_shift(&shift, told);
            shift
        }
    }
}

// Deals the seats and programs to workers, lets these work, and gathers the seats and programs again. What all turns
// told. AllocError where there is no memory for the workers: then nothing is changed.
fn drive_shift<R: Threads + Clock + Sync, P: Program + Send + Drop, G: Gate + Sync>(
    rt: &R,
    alloc: Global,
    machine: &Machine,
    shift: &mut Shift<P>,
    workers: u32,
    turn_limit: u32,
    fair: bool,
    gate: &G,
) -> Result<Told, AllocError>
    requires cores { AllCoreSeats machine.now shift.old.cores.items }
    requires banks { AllBankSeats machine.now shift.old.banks.items }
    requires ahead { AreAhead P.acts shift.old.cores.items shift.old.programs.items }
    requires few { (length shift.old.cores.items ≤ 72) × (length shift.old.banks.items ≤ 72) }
    requires workers { (0 < workers) × (workers ≤ 16) }
    ensures worked { IfOk result (λ told. SeatsGiven P.acts machine.now fair (AtMost turn_limit)
        shift.old.cores.items shift.old.banks.items shift.old.programs.items told
        shift.new.cores.items shift.new.banks.items shift.new.programs.items) }
    ensures used { IfOk result (λ told. ends_all told ≡ false →
        SeatsGiven P.acts machine.now fair (Exactly turn_limit)
        shift.old.cores.items shift.old.banks.items shift.old.programs.items told
        shift.new.cores.items shift.new.banks.items shift.new.programs.items
        ⊎ AreOver P.acts shift.new.cores.items shift.new.programs.items) }
    ensures refused { OnErr result (shift.new ≡ shift.old) }
{
    let count = workers as usize;
    let (cores, programs, banks) = (shift.cores.len(), shift.programs.len(), shift.banks.len());
    let (signals, mut signalers) = open_signals(alloc, workers)?;
    let mut hands = open_hands(alloc, count, shift)?;
    let mut team = Vec::with_capacity(alloc, count)?;
    deal_shift(shift, &mut hands);
    form_team(&mut hands, &mut signalers, &mut team);
    let rota = Rota {
        programs: cores as u64,
        turns: turn_limit,
        fair,
    };
    drive_team(rt, machine, &signals, gate, rota, workers, &mut team);
    let told = told_by_team(team.as_slice());
    disband_team(team, &mut hands, &mut signalers);
    signals.close(signalers);
    gather_shift(hands, shift, cores, programs, banks);
    Ok(told)
}

// Each of so many workers works in a thread of its own, one of them in the calling one.
fn drive_team<R: Threads + Clock + Sync, P: Program + Send + Drop, G: Gate + Sync>(
    rt: &R,
    machine: &Machine,
    signals: &Signals,
    gate: &G,
    rota: Rota,
    workers: u32,
    team: &mut Vec<Worker<P>>,
)
    requires many { (0 < workers) × (length team.old.items ≡ workers) }
    requires ready { AreReady P.acts machine.now signals.now team.old.items }
    ensures work { AllWork P.acts machine.now signals.now rota team.old.items team.new.items }
{
    thread::for_each_mut(
        rt,
        team.as_mut_slice(),
        workers as usize,
        &|_, worker: &mut Worker<P>| -> ()
            requires { IsReady P.acts machine.now signals.now worker.now }
            ensures { IsSignalerOf signals.entry.now worker.exit.now.signaler ×
                Works P.acts machine.entry.now rota worker.entry.now worker.exit.now }
        { run_worker(rt, machine, signals, gate, rota, worker) },
    );
}

// What all turns of a team told.
fn told_by_team<P: Drop>(team: &[Worker<P>]) -> Told
    ensures no_memory { result.no_memory ≡ list_any (λ w. w.told.no_memory) team.now }
    ensures is_exhausted { result.is_exhausted ≡ list_any (λ w. w.told.is_exhausted) team.now }
    ensures has_progressed { result.has_progressed ≡
        list_any (λ w. w.told.has_progressed) team.now }
{
    Told {
        no_memory: team_lacks_memory(team),
        is_exhausted: is_team_exhausted(team),
        has_progressed: team.iter().any(|worker| worker.told.has_progressed),
    }
}

// Whether a turn of a team reported that memory was refused.
fn team_lacks_memory<P: Drop>(team: &[Worker<P>]) -> bool
    ensures { result ≡ list_any (λ w. w.told.no_memory) team.now }
{
    team.iter().any(|worker| worker.told.no_memory)
}

// Whether a turn of a team reported that its seat stopped.
fn is_team_exhausted<P: Drop>(team: &[Worker<P>]) -> bool
    ensures { result ≡ list_any (λ w. w.told.is_exhausted) team.now }
{
    team.iter().any(|worker| worker.told.is_exhausted)
}

// How a shift ends, by what is left to do and what the turns told.
fn end_of_shift<P: Program + Drop>(shift: &Shift<P>, told: Told) -> End
    requires { length shift.now.programs.items ≡ length shift.now.cores.items }
    ensures done { result ≡ end.AllDone → AreOver P.acts shift.now.cores.items
        shift.now.programs.items }
    ensures all_done { AreOver P.acts shift.now.cores.items shift.now.programs.items →
        result ≡ end.AllDone }
    ensures otherwise { result ≢ end.AllDone → result ≡ end_told told }
{
    if are_core_seats_over(&shift.cores, &shift.programs) {
        return End::AllDone;
    }
    if told.no_memory {
        return End::NoMemory;
    }
    if told.is_exhausted {
        End::Exhausted
    } else {
        End::TurnsUsed
    }
}
