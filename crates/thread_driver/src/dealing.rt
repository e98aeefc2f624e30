//! Deals seats and programs to workers, and collects them again.
ghost use Rattle.std.specs.Prelude.{◌≡◌, ℕ, ◌<◌, ◌≤◌, ◌^◌, [], IfOk, length, map, vec_capacity};
ghost use Rattle.thread_driver.specs.Hands.{AreBack, AreDealt, AreHands, AreRoomy, AreSplit, HaveHandRoom, HaveLengths};
ghost use Rattle.round_robin.specs.Dealing.{total_length};
ghost use Rattle.thread_driver.specs.Hands.{banks_in, cores_in, programs_in};

use crate::shift::Shift;
use crate::told::QUIET;
use crate::worker::{Hands, Worker};
use round_robin::{deal, gather, new_empty_hands};
use std::alloc::{AllocError, Global};
use stop_flags::Signaler;

/// Hands with room for the seats and programs of a shift.
pub(crate) fn open_hands<P: Drop>(
    alloc: Global,
    count: usize,
    shift: &Shift<P>,
) -> Result<Hands<P>, AllocError>
    requires { 0 < count }
    ensures hands { IfOk result (AreHands count) }
    ensures room { IfOk result (HaveHandRoom count) }
    ensures shares { IfOk result (AreRoomy shift.now) }
{
    Ok(Hands {
        cores: new_empty_hands(alloc, count, shift.cores.len())?,
        programs: new_empty_hands(alloc, count, shift.programs.len())?,
        banks: new_empty_hands(alloc, count, shift.banks.len())?,
    })
}

/// Deals all seats and programs of a shift. Banks are numbered after cores.
pub(crate) fn deal_shift<P: Drop>(shift: &mut Shift<P>, hands: &mut Hands<P>)
    requires some { 0 < length hands.old.cores.items }
    requires hands { AreHands (length hands.old.cores.items) hands.old }
    requires shares { AreRoomy shift.old hands.old }
    requires few { length shift.old.cores.items < 2 ^ 32 }
    ensures hands { AreHands (length hands.old.cores.items) hands.new }
    ensures room { (n : ℕ) → HaveHandRoom n hands.old → HaveHandRoom n hands.new }
    ensures dealt { AreDealt (length hands.old.cores.items)
        shift.old.cores.items shift.old.programs.items shift.old.banks.items
        (cores_in hands.new) (programs_in hands.new) (banks_in hands.new) }
    ensures total { (total_length (cores_in hands.new) ≡ length shift.old.cores.items) ×
        (total_length (banks_in hands.new) ≡ length shift.old.banks.items) }
    ensures empty { (shift.new.cores.items ≡ []) × (shift.new.programs.items ≡ []) ×
        (shift.new.banks.items ≡ []) }
    ensures capacity { (vec_capacity shift.new.cores ≡ vec_capacity shift.old.cores) ×
        (vec_capacity shift.new.programs ≡ vec_capacity shift.old.programs) ×
        (vec_capacity shift.new.banks ≡ vec_capacity shift.old.banks) }
    ensures ends { shift.new.end ≡ shift.old.end }
{
    let cores = shift.cores.len();
    deal(&mut shift.cores, 0, &mut hands.cores);
    deal(&mut shift.programs, 0, &mut hands.programs);
    deal(&mut shift.banks, cores, &mut hands.banks);
}

/// Gathers all seats and programs from hands into the lists of a shift, which are empty and have room for them.
pub(crate) fn gather_shift<P: Drop>(
    hands: Hands<P>,
    shift: &mut Shift<P>,
    cores: usize,
    programs: usize,
    banks: usize,
)
    requires empty { (shift.old.cores.items ≡ []) × (shift.old.programs.items ≡ []) ×
        (shift.old.banks.items ≡ []) }
    requires room { (cores ≤ vec_capacity shift.old.cores) ×
        (programs ≤ vec_capacity shift.old.programs) × (banks ≤ vec_capacity shift.old.banks) }
    requires lengths { HaveLengths (length hands.cores.items) cores programs banks
        (cores_in hands) (programs_in hands) (banks_in hands) }
    requires few { cores < 2 ^ 32 }
    ensures long { (length shift.new.cores.items ≡ cores) ×
        (length shift.new.programs.items ≡ programs) × (length shift.new.banks.items ≡ banks) }
    ensures dealt { AreDealt (length hands.cores.items)
        shift.new.cores.items shift.new.programs.items shift.new.banks.items
        (cores_in hands) (programs_in hands) (banks_in hands) }
    ensures ends { shift.new.end ≡ shift.old.end }
{
    let Hands {
        cores: core_hands,
        programs: program_hands,
        banks: bank_hands,
    } = hands;
    gather(core_hands, 0, &mut shift.cores, cores);
    gather(program_hands, 0, &mut shift.programs, programs);
    gather(bank_hands, cores, &mut shift.banks, banks);
}

/// Workers, one a signaler, take what is in the hands.
#[tactic(auto, using(crate::proofs::Formed::split_more))]
pub(crate) fn form_team<P: Drop>(
    hands: &mut Hands<P>,
    signalers: &mut Vec<Signaler>,
    team: &mut Vec<Worker<P>>,
)
    requires hands { AreHands (length signalers.old.items) hands.old }
    requires none { team.old.items ≡ [] }
    requires room { length signalers.old.items ≤ vec_capacity team.old }
    ensures split { AreSplit hands.old hands.new team.new.items }
    ensures empty { AreHands 0 hands.new }
    ensures room { (n : ℕ) → HaveHandRoom n hands.old → HaveHandRoom n hands.new }
    ensures signalers { map (λ w. w.signaler) team.new.items ≡ signalers.old.items }
    ensures none_left { (signalers.new.items ≡ []) ×
        (vec_capacity signalers.new ≡ vec_capacity signalers.old) }
{
    while let Some(signaler) = signalers.pop() {
        let cores = hands.cores.pop();
        let programs = hands.programs.pop();
        let banks = hands.banks.pop();
        let worker = Worker {
            signaler,
            cores: cores.unwrap(),
            programs: programs.unwrap(),
            banks: banks.unwrap(),
            told: QUIET,
            room: [0; 16],
        };
        let stored = team.insert(0, worker);
        stored.unwrap();
    }
}

/// Workers put what they have into the hands again, and their signalers into a list.
pub(crate) fn disband_team<P: Drop>(
    mut team: Vec<Worker<P>>,
    hands: &mut Hands<P>,
    signalers: &mut Vec<Signaler>,
)
    requires empty { AreHands 0 hands.old × (signalers.old.items ≡ []) }
    requires room { HaveHandRoom (length team.items) hands.old ×
        (length team.items ≤ vec_capacity signalers.old) }
    ensures back { AreBack team.items [] hands.new }
    ensures signalers { signalers.new.items ≡ map (λ w. w.signaler) team.items }
{
    while let Some(worker) = team.pop() {
        let Worker {
            signaler,
            cores,
            programs,
            banks,
            ..
        } = worker;
        let kept = signalers.insert(0, signaler);
        kept.unwrap();
        let first = hands.cores.insert(0, cores);
        first.unwrap();
        let second = hands.programs.insert(0, programs);
        second.unwrap();
        let third = hands.banks.insert(0, banks);
        third.unwrap();
    }
}
