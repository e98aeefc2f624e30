//! A machine of seats, from its opening to the calls after its close.
ghost use Rattle.std.specs.Prelude.{IfOk};
ghost use Rattle.closed_machine.specs.RunParts.{Parts};
ghost use Rattle.mailboxes.specs.Seats.{AllBankSeats, AllCoreSeats};

use crate::calls::Call;
use crate::play::Play;
use crate::runs::put_closed_answer;
use crate::seats::put_open_answer;
use event_text::{Dialog, NO_MEMORY, Opening, opening_memory_of};
use machine_table::{Config, OpenError};
use mailboxes::{BankSeat, CoreSeat, Machine, Run, open};
use physiological_order::Memory;
use std::alloc::{AllocError, Global};
use std::io;

/// A machine with this memory, and its seats.
fn open_seats(
    alloc: Global,
    config: &Config,
    memory: Memory,
) -> Result<(Machine, Vec<CoreSeat>, Vec<BankSeat>), OpenError>
    ensures cores { IfOk result (λ r. AllCoreSeats r.0 r.1.items) }
    ensures banks { IfOk result (λ r. AllBankSeats r.0 r.2.items) }
{
    match open(alloc, *config, memory) {
        Err(error) => Err(error),
        Ok(all) => Ok(all),
    }
}

/// What a machine leaves that is closed with these seats, which are all that it has. AllocError if memory for that
/// can't be allocated; then all is dropped.
fn close_seats(
    alloc: Global,
    machine: Machine,
    cores: Vec<CoreSeat>,
    banks: Vec<BankSeat>,
) -> Result<Run, AllocError>
    requires cores { AllCoreSeats machine cores.items }
    requires banks { AllBankSeats machine banks.items }
    ensures { IfOk result (λ r. Parts r) }
{
    if !machine.is_whole(cores.as_slice(), banks.as_slice()) {
        return Err(AllocError);
    }
    machine.close(alloc, cores, banks)
}

/// Plays calls of open seats, up to a line that opens or closes.
fn play_open_seats<D: Dialog>(
    play: &mut Play<'_, D>,
    machine: &Machine,
    cores: &mut Vec<CoreSeat>,
    banks: &mut Vec<BankSeat>,
) -> io::Result<()>
    requires cores { AllCoreSeats machine.now cores.old.items }
    requires banks { AllBankSeats machine.now banks.old.items }
    ensures cores { AllCoreSeats machine.now cores.new.items }
    ensures banks { AllBankSeats machine.now banks.new.items }
{
    for _ in 0..u64::MAX {
        match play.current_call()? {
            None | Some(Call::Seats(_) | Call::Numbers(_) | Call::Close) => return Ok(()),
            Some(call) => {
                put_open_answer(machine, cores, banks, &call, &mut play.reply);
                play.take_answer()?;
            }
        }
    }
    Ok(())
}

/// Plays calls after the close, up to a line that opens.
fn play_closed_seats<D: Dialog>(play: &mut Play<'_, D>, run: &Run) -> io::Result<()>
    requires { Parts run.now }
{
    for _ in 0..u64::MAX {
        match play.current_call()? {
            None | Some(Call::Seats(_) | Call::Numbers(_)) => return Ok(()),
            Some(call) => {
                put_closed_answer(play.alloc, run, &call, &mut play.reply);
                play.take_answer()?;
            }
        }
    }
    Ok(())
}

/// Plays a machine: the line that opens it, and those after it, up to one that opens anew.
pub(crate) fn play_machine<D: Dialog>(play: &mut Play<'_, D>, opening: &Opening) -> io::Result<()> {
    let Ok(memory) = opening_memory_of(play.alloc, opening.words.as_slice()) else {
        return play.answer_with(NO_MEMORY);
    };
    let (machine, mut cores, mut banks) = match open_seats(play.alloc, &opening.config, memory) {
        Ok(all) => all,
        Err(OpenError::BadConfig) => return play.answer_with("refused BadConfig"),
        Err(OpenError::NoMemory) => return play.answer_with(NO_MEMORY),
    };
    play.reply.line_words = opening.config.line_words;
    play.answer_with("opened")?;
    play_open_seats(play, &machine, &mut cores, &mut banks)?;
    if !matches!(play.current_call()?, Some(Call::Close)) {
        return Ok(());
    }
    match close_seats(play.alloc, machine, cores, banks) {
        Ok(run) => {
            play.answer_with("closed")?;
            play_closed_seats(play, &run)
        }
        Err(AllocError) => play.answer_with(NO_MEMORY),
    }
}
