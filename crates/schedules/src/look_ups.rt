//! What a run looks up in the machine and the programs, and what it gives these.
ghost use Rattle.std.specs.Prelude.{◌≡◌, List};
ghost use Rattle.schedules.specs.Notes.{IsAsked, IsTold};
ghost use Rattle.interleaving_core.specs.PartChanges.{answer_in};
ghost use Rattle.machine_table.specs.Machine.{open_op};
ghost use Rattle.programs.specs.Acts.{next_in, done_in};
ghost use Rattle.schedules.specs.Parts.{programs_told, told_advance};
ghost use Rattle.schedules.specs.Runs.{are_over, is_over};

use crate::log::{Log, is_advanced};
use interleaving_core::{History, PlainAnswer, System, with_bit};
use physiological_order::Record;
use programs::Step;
use programs::program::Program;

// The next step of a core's program.
pub(crate) fn next_step_of_core<P: Program>(programs: &[P], core: u32) -> Option<Step>
    ensures { result ≡ next_in P.acts programs.now core }
{
    let at = core as usize;
    if at >= programs.len() {
        return None;
    }
    programs[at].next()
}

// The cores whose programs have a next step, of the first 64: core c is one exactly if bit c is set.
pub(crate) fn unfinished_cores<P: Program>(programs: &[P]) -> u64
    ensures { IsAsked P.acts programs.now result }
{
    let mut mask = 0;
    for core in 0..programs.len().min(64) as u32 {
        mask = with_bit(mask, core, next_step_of_core(programs, core).is_some());
    }
    mask
}

// Gives a core's program what its next step received.
#[inline(always)]
fn give_received<P: Program>(programs: &mut [P], core: u32, received: Option<u64>)
    ensures { programs.new ≡ done_in P.acts programs.old core received }
{
    let at = core as usize;
    if at < programs.len() {
        programs[at].done(received);
    }
}

// Tells a core's program that its next step is done, and asks whether it has another one.
fn mark_step_done<P: Program, W>(
    programs: &mut [P],
    log: &mut Log<W>,
    core: u32,
    received: Option<u64>,
)
    ensures done { programs.new ≡ done_in P.acts programs.old core received }
    ensures told { IsTold P.acts programs.old log.old programs.new log.new }
{
    give_received(programs, core, received);
    if core >= 64 {
        return;
    }
    log.set_core_unfinished(core, next_step_of_core(programs, core).is_some());
}

// Tells a core's program that its operation is done, if that completed: the machine's last record is of it.
pub(crate) fn mark_operation_done<P: Program, W, K: History>(
    system: &System<K>,
    programs: &mut [P],
    log: &mut Log<W>,
    plain: &Option<PlainAnswer>,
)
    ensures done { programs.new ≡ programs_told P.acts programs.old
        (answer_in system.now.records plain.now) }
    ensures told { IsTold P.acts programs.old log.old programs.new log.new }
{
    if plain.is_some() {
        return;
    }
    let Some(record) = system.last_record() else {
        return;
    };
    mark_step_done(programs, log, record.core, record.received);
}

// Tells a core's program that its advance is done, if the core advanced.
pub(crate) fn mark_advance_done<P: Program, W>(
    programs: &mut [P],
    log: &mut Log<W>,
    core: u32,
    plain: &Option<PlainAnswer>,
)
    ensures done { (records : List Record) → programs.new ≡
        told_advance P.acts programs.old core (answer_in records plain.now) }
    ensures told { IsTold P.acts programs.old log.old programs.new log.new }
{
    if !is_advanced(plain) {
        return;
    }
    mark_step_done(programs, log, core, None);
}

// Whether a core has no open operation and its program no next step.
fn is_core_over<P: Program, K: History>(system: &System<K>, programs: &[P], core: u32) -> bool
    ensures { result ≡ is_over P.acts system.now programs.now core }
{
    if system.open_op(core).is_some() {
        return false;
    }
    next_step_of_core(programs, core).is_none()
}

// Whether that is so of all cores. While a program has a next step, the cores aren't asked.
#[inline(always)]
pub(crate) fn are_cores_over<P: Program, W, K: History>(
    system: &System<K>,
    programs: &[P],
    log: &Log<W>,
) -> bool
    requires { IsAsked P.acts programs.now log.now.unfinished }
    ensures { result ≡ are_over P.acts system.now programs.now system.now.config.cores }
{
    let cores = system.cores();
    if log.unfinished_cores().trailing_zeros() < cores {
        return false;
    }
    are_cores_below_over(system, programs, cores)
}

// Whether that is so of all cores below a number.
fn are_cores_below_over<P: Program, K: History>(
    system: &System<K>,
    programs: &[P],
    cores: u32,
) -> bool
    ensures { result ≡ are_over P.acts system.now programs.now cores }
{
    for core in 0..cores {
        if !is_core_over(system, programs, core) {
            return false;
        }
    }
    true
}
