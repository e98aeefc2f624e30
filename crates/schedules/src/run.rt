//! Turns of a schedule, until a run ends.
ghost use Rattle.std.specs.Prelude.{◌≡◌, ◌&&◌, false, not};
ghost use Rattle.schedules.specs.Notes.{Finishes};
ghost use Rattle.schedules.specs.Runs.{initial_position, plan_of};

use crate::log::Log;
use crate::look_ups::{are_cores_over, unfinished_cores};
use crate::schedule::Schedule;
use crate::watcher::Watcher;
use interleaving_core::{History, System};
use programs::End;
use programs::program::Program;

// Whether a turn without progress is the last, and this one was.
fn is_last_turn<P: Program, W, S: Schedule<P>>(schedule: &S, log: &Log<W>) -> bool
    ensures { result ≡ (S.rule.stalls && not log.now.has_progressed) }
{
    schedule.stalls() && !log.has_progressed()
}

// At most so many turns: until all is done, a turn went by without progress if the schedule stalls then, times are
// exhausted or memory was refused.
pub(crate) fn run_turns<P: Program, W: Watcher, S: Schedule<P>, K: History>(
    schedule: &mut S,
    system: &mut System<K>,
    programs: &mut [P],
    log: &mut Log<W>,
    limit: u32,
) -> End
    requires no_progress_yet { log.old.has_progressed ≡ false }
    ensures { Finishes W.watches (plan_of P.acts S.rule limit) (initial_position P.acts system.old
        programs.old schedule.old)
        log.old.watcher log.new.watcher system.new programs.new schedule.new result }
{
    log.set_unfinished_cores(unfinished_cores(programs));
    for _made in 0..limit {
        if are_cores_over(system, programs, log) {
            return End::AllDone;
        }
        log.begin_turn();
        if let Err(end) = schedule.turn(system, programs, log) {
            return end;
        }
        if is_last_turn::<P, W, S>(schedule, log) {
            return End::Stalled;
        }
    }
    if are_cores_over(system, programs, log) {
        End::AllDone
    } else {
        End::TurnsUsed
    }
}
