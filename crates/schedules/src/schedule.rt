//! Schedules: the turns of a run.
ghost use Rattle.std.specs.Prelude.{◌≡◌};
ghost use Rattle.schedules.specs.Notes.{Did, IsAsked, at};

use crate::log::Log;
use crate::watcher::Watcher;
use interleaving_core::{History, System};
use programs::End;
use programs::program::Program;

// A schedule for such programs.
pub(crate) trait Schedule<P: Program> {
    ghost use Rattle.schedules.specs.Schedules.{Schedule};

    // How its turns go.
    ghost rule: { Schedule P Self };

    // A turn, to its end or to the end of the run; the schedule goes on by it either way. Which programs have a next
    // step was noted.
    fn turn<W: Watcher, K: History>(
        &mut self,
        system: &mut System<K>,
        programs: &mut [P],
        log: &mut Log<W>,
    ) -> Result<(), End>
        requires { IsAsked P.acts programs.old log.old.unfinished }
        ensures did { Did P.acts W.watches (rule.turn self.old) (at system.old programs.old log.old) result
            (at system.new programs.new log.new) }
        ensures next { self.new ≡ rule.next self.old };

    // Whether a turn without progress is the last.
    fn stalls(&self) -> bool
        ensures { result ≡ rule.stalls };
}
