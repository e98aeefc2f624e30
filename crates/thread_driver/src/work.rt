//! What a worker does: it gives its seats turns until there is nothing left to do.
ghost use Rattle.std.specs.Prelude.{◌≡◌, ◌⊎◌, ◌≤◌, ◌<◌, ◌^◌, None, IfSome, length};
ghost use Rattle.std.specs.List.{zip};
ghost use Rattle.mailboxes.specs.Seats.{AllBankSeats, AllCoreSeats};
ghost use Rattle.stop_flags.specs.Signalers.{IsSignalerOf, last_look, number_of};
ghost use Rattle.thread_driver.specs.Given.{told_by_both};
ghost use Rattle.thread_driver.specs.Playing.{AreAhead};
ghost use Rattle.thread_driver.specs.Teams.{FoundEnd, FoundNoEnd, HasCounts, HasUsedAll, IsReady, SeatsPassed, Works};
ghost use Rattle.thread_driver.specs.Teams.{over_in, rested};

use crate::counting::{all_turns_used, count_core_seats_over};
use crate::pass::{bank_pass, core_pass, ends_all_turns};
use crate::told::{QUIET, Told, told_by_both};
use crate::worker::{Rota, Worker};
use mailboxes::{CoreSeat, Machine};
use programs::program::Program;
use shared_jobs::Gate;
use std::rt::Clock;
use std::thread;
use std::time::Duration;
use stop_flags::{Signaler, Signals};

// The most seats of a machine.
const SEATS: usize = 72;

// How long a worker sleeps that waits for others, in microseconds.
const REST: u64 = 50;

/// Gives the worker's seats turns, one pass after the other, until all programs are done, its seats had their most
/// turns, or some seat lacked memory or stopped. Then it has signaled a stop exactly if that was a seat of its own.
pub(crate) fn run_worker<R: Clock, P: Program + Drop, G: Gate>(
    rt: &R,
    machine: &Machine,
    signals: &Signals,
    gate: &G,
    rota: Rota,
    worker: &mut Worker<P>,
)
    requires { IsReady P.acts machine.now signals.now worker.old }
    ensures signaler { IsSignalerOf signals.now worker.new.signaler }
    ensures works { Works P.acts machine.now rota worker.old worker.new }
{
    worker.told = QUIET;
    let mut cores_had = [0; SEATS];
    let mut banks_had = [0; SEATS];
    let mut idle = 0;
    for _ in 0..rota.turns {
        let passed = worker_pass(
            machine,
            signals,
            gate,
            rota,
            worker,
            &mut cores_had,
            &mut banks_had,
        );
        let Some(told) = passed else {
            return;
        };
        let (all, passes, is_due) = after_pass(worker.told, idle, told);
        worker.told = all;
        idle = passes;
        if ends_all_turns(&told) {
            worker.signaler.signal_stop(signals);
            return;
        }
        if is_due && signals.workers > 1 {
            thread::sleep(rt, Duration::from_micros(REST));
        }
    }
    signal_finished_programs(
        signals,
        &mut worker.signaler,
        &worker.cores,
        &worker.programs,
    );
}

// What a worker keeps after a pass: what all its turns reported, and how many passes in a row came to nothing, less
// those for which it slept. And whether it is to sleep: after the 128th of these, and after each fourth that follows.
fn after_pass(all: Told, idle: u8, told: Told) -> (Told, u8, bool)
    ensures told { result.0 ≡ told_by_both all told }
    ensures idle { (result.1, result.2) ≡ rested idle told.has_progressed }
{
    let all = told_by_both(all, told);
    if told.has_progressed {
        return (all, 0, false);
    }
    if idle < 127 {
        return (all, idle + 1, false);
    }
    (all, 124, true)
}

// Tells which programs are finished, and looks. If that finds no end, and turns are left, each seat of the worker has
// turns. The lists say how many turns each core's seat and each bank's has had.
fn worker_pass<P: Program + Drop, G: Gate>(
    machine: &Machine,
    signals: &Signals,
    gate: &G,
    rota: Rota,
    worker: &mut Worker<P>,
    cores_had: &mut [u32],
    banks_had: &mut [u32],
) -> Option<Told>
    requires signaler { IsSignalerOf signals.now worker.old.signaler }
    requires few { (length worker.old.cores.items ≤ 72) × (length worker.old.banks.items ≤ 72) }
    requires counts { (length cores_had.old ≡ 72) × (length banks_had.old ≡ 72) }
    requires finished { worker.old.signaler.said.finished ≤
        over_in P.acts (zip worker.old.cores.items worker.old.programs.items) }
    requires cores { AllCoreSeats machine.now worker.old.cores.items }
    requires banks { AllBankSeats machine.now worker.old.banks.items }
    requires ahead { AreAhead P.acts worker.old.cores.items worker.old.programs.items }
    ensures cores { AllCoreSeats machine.now worker.new.cores.items }
    ensures banks { AllBankSeats machine.now worker.new.banks.items }
    ensures ahead { AreAhead P.acts worker.new.cores.items worker.new.programs.items }
    ensures signaler { IsSignalerOf signals.now worker.new.signaler }
    ensures told { worker.new.signaler.said.finished ≡
        over_in P.acts (zip worker.old.cores.items worker.old.programs.items) }
    ensures kept { (number_of worker.new.signaler ≡ number_of worker.old.signaler) ×
        (worker.new.signaler.said.stops ≡ worker.old.signaler.said.stops) ×
        (worker.new.told ≡ worker.old.told) }
    ensures ended { result ≡ None → (FoundEnd rota (last_look worker.new.signaler)
        ⊎ HasUsedAll rota worker.old cores_had.old banks_had.old) ×
        (worker.new ≡ record worker.old { signaler = worker.new.signaler }) }
    ensures goes { IfSome result (λ told. FoundNoEnd rota (last_look worker.new.signaler)) }
    ensures passed { IfSome result (λ told. (passed : SeatsPassed P.acts machine.now rota.fair
        worker.old.cores.items worker.old.banks.items worker.old.programs.items told
        worker.new.cores.items worker.new.banks.items worker.new.programs.items) ×
        HasCounts P.acts rota.turns cores_had.old banks_had.old cores_had.new banks_had.new
        passed) }
{
    signal_finished_programs(
        signals,
        &mut worker.signaler,
        &worker.cores,
        &worker.programs,
    );
    let look = worker.signaler.read_signals(signals);
    if look.is_stopped || look.finished >= rota.programs {
        return None;
    }
    let (cores, banks) = (worker.cores.len(), worker.banks.len());
    if all_turns_used(cores_had, cores, banks_had, banks, rota.turns) {
        return None;
    }
    let (cores, programs) = (&mut worker.cores, &mut worker.programs);
    let told = core_pass(machine, gate, cores, programs, cores_had, rota.turns);
    if ends_all_turns(&told) {
        return Some(told);
    }
    let banks = bank_pass(
        machine,
        gate,
        &mut worker.banks,
        banks_had,
        rota.turns,
        rota.fair,
    );
    Some(told_by_both(told, banks))
}

// Signals each program that was finished since: then so many are signalled as are over.
fn signal_finished_programs<P: Program>(
    signals: &Signals,
    signaler: &mut Signaler,
    cores: &[CoreSeat],
    programs: &[P],
)
    requires signaler { IsSignalerOf signals.now signaler.old }
    requires long { length programs.now ≡ length cores.now }
    requires few { length cores.now < 2 ^ 32 }
    requires finished { signaler.old.said.finished ≤ over_in P.acts (zip cores.now programs.now) }
    ensures signaler { IsSignalerOf signals.now signaler.new }
    ensures told { signaler.new.said.finished ≡ over_in P.acts (zip cores.now programs.now) }
    ensures kept { (number_of signaler.new ≡ number_of signaler.old) ×
        (last_look signaler.new ≡ last_look signaler.old) ×
        (signaler.new.said.stops ≡ signaler.old.said.stops) }
{
    let over = count_core_seats_over(cores, programs);
    for _ in signaler.said.finished..over {
        let _finished = signaler.finish_program(signals);
    }
}
