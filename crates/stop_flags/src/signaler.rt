//! One that sets and reads the signals.
ghost use Rattle.std.specs.Prelude.{◌≡◌, ℕ, ◌≤◌, ◌<◌, true, IsOk, IsErr};
ghost use Rattle.stop_flags.specs.Ties.{SignalerTied};

use crate::signals::Signals;
use crate::steps::{FlagSeat, read_finished, read_stopped, signal_finished, signal_stopped};
use crate::words::{Look, Said, TooMany};

// How many programs a signaler finishes at most.
const LIMIT: u64 = 4294967296;

/// A signaler, with what it has said.
#[derive(Drop)]
pub struct Signaler {
    pub seat: FlagSeat,
    pub said: Said,
    pub ghost tied: { SignalerTied seat said },
}

impl Signaler {
    ghost use Rattle.stop_flags.specs.Told.{one_finished, has_stopped, FinishedInAll, SomeStopped};
    ghost use Rattle.stop_flags.specs.Signalers.{IsSignalerOf, last_look, number_of};

    /// Signals that one more program is finished, by one addition to the word that counts them.
    pub fn finish_program(&mut self, signals: &Signals) -> Result<(), TooMany>
        requires { IsSignalerOf signals.now self.old }
        ensures signaler { IsSignalerOf signals.now self.new }
        ensures kept { (number_of self.new ≡ number_of self.old) ×
            (last_look self.new ≡ last_look self.old) }
        ensures told { IsOk result → self.new.said ≡ one_finished self.old.said }
        ensures refused { IsErr result → self.new ≡ self.old }
        ensures many { self.old.said.finished ≡ 4294967296 → IsErr result }
        ensures not_many { self.old.said.finished < 4294967296 → IsOk result }
    {
        if self.said.finished >= LIMIT {
            return Err(TooMany);
        }
        signal_finished(&signals.table.shared, &mut self.seat);
        self.said.finished += 1;
        Ok(())
    }

    /// Signals that a seat has stopped. Further calls are allowed.
    pub fn signal_stop(&mut self, signals: &Signals)
        requires { IsSignalerOf signals.now self.old }
        ensures signaler { IsSignalerOf signals.now self.new }
        ensures kept { (number_of self.new ≡ number_of self.old) ×
            (last_look self.new ≡ last_look self.old) }
        ensures told { self.new.said ≡ has_stopped self.old.said }
    {
        signal_stopped(&signals.table.shared, &mut self.seat);
        self.said.stops = true;
    }

    /// Reads how many programs are finished, and whether some seat has stopped. It reads the two words one after the
    /// other.
    pub fn read_signals(&mut self, signals: &Signals) -> Look
        requires { IsSignalerOf signals.now self.old }
        ensures signaler { IsSignalerOf signals.now self.new × (self.new.said ≡ self.old.said) }
        ensures kept { (number_of self.new ≡ number_of self.old) × (last_look self.new ≡ result) }
        ensures own { self.old.said.finished ≤ result.finished }
        ensures finished { FinishedInAll signals.now.workers self.old.said result.finished }
        ensures stopped { self.old.said.stops ≡ true → result.is_stopped ≡ true }
        ensures by_some { result.is_stopped ≡ true →
            SomeStopped signals.now.workers self.old.said }
    {
        let finished = read_finished(&signals.table.shared, &mut self.seat);
        let stopped = read_stopped(&signals.table.shared, &mut self.seat);
        Look {
            finished,
            is_stopped: stopped == 1,
        }
    }
}
