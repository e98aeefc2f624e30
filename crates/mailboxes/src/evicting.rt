//! A core's seat evicts a copy.
ghost use Rattle.std.specs.Prelude.{◌≡◌, ◌≢◌, ◌&&◌, not, Err, OnOk, OnErr};
ghost use Rattle.core_pts.specs.CoreTable as core_table;
ghost use Rattle.mailboxes.specs.BoxMoves.{hold};
ghost use Rattle.mailboxes.specs.CoreCalls.{SameHold, SamePlace, sending_hold};
ghost use Rattle.mailboxes.specs.Evictions.{TakesOut, core_evict_answer, evicted_by_core, is_sent_back};
ghost use Rattle.mailboxes.specs.Seats.{IsCoreSeat};

use crate::changes::change_core_hold;
use crate::core_seat::CoreSeat;
use crate::machine::Machine;
use crate::sending::SendingCore;
use core_pts::Core;
use machine_table::Refusal;
use network::LineNo;
use private_cache::{CacheError, CopyState};
use seat_rule::parts::messages_of_seats_find_their_parts;

// Whether an eviction of a line's copy sends it back.
fn eviction_returns_line(core: &Core, line: LineNo) -> bool
    ensures { result ≡ is_sent_back (core_table.evict core.now line).0 }
{
    let Some(copy) = core.copy(line) else {
        return false;
    };
    matches!(copy.state, CopyState::Exclusive) && !core.is_pinned(line)
}

// Takes the copy of a line out of the core, and sends it back, if the core owned it. An error changes nothing.
fn evict_and_send_back(part: &mut SendingCore, line: LineNo) -> Result<(), Refusal>
    ensures answer { (result, part.new) ≡ evicted_by_core part.old line }
    ensures done { OnOk result (TakesOut part.old line part.new) }
    ensures refused { OnErr result (part.new ≡ part.old) }
{
    if !part.outbox.can_send_out() {
        if eviction_returns_line(&part.core, line) {
            return Err(Refusal::NetworkFull);
        }
    }
    match part.core.evict(line) {
        Err(CacheError::NotHere) => Err(Refusal::NoSuch),
        Err(CacheError::NoRoom) => Err(Refusal::NoSuch),
        Err(CacheError::Pinned) => Err(Refusal::Pinned),
        Ok(None) => Ok(()),
        Ok(Some(back)) => {
            part.outbox.send(back);
            Ok(())
        }
    }
}

impl CoreSeat {
    /// Evicts a copy from the core's cache, and sends it back if the core owns it.
    ///
    /// Stopped exactly if the seat is stopped; else NoSuch exactly if there is no copy of the line; else Pinned
    /// exactly if the open operation is on the line; else NetworkFull exactly if the copy would be sent back, and the
    /// outbox has no place or the seat sent 2 ^ 64 - 1 messages. The call never answers NoMemory. A refusal changes
    /// nothing.
    pub fn evict(&mut self, machine: &Machine, line: LineNo) -> Result<(), Refusal>
        requires { IsCoreSeat machine.now self.old }
        ensures seat { IsCoreSeat machine.now self.new × SamePlace self.old self.new }
        ensures answer { result ≡ core_evict_answer self.old.is_stopped self.old.part line }
        ensures part { OnOk result (self.new.part ≡ (evicted_by_core self.old.part line).1) }
        ensures done { OnOk result (hold self.new.mail ≡ sending_hold (hold self.old.mail)
            self.new.part.core self.new.part.outbox) }
        ensures refused { OnErr result (SameHold self.old self.new) }
        ensures stopped { self.new.is_stopped ≡ self.old.is_stopped }
        ensures sure { result ≢ Err Refusal.NoMemory }
    {
        if self.is_stopped {
            return Err(Refusal::Stopped);
        }
        messages_of_seats_find_their_parts();
        evict_and_send_back(&mut self.part, line)?;
        change_core_hold(
            machine,
            &mut self.mail.seat,
            &self.part,
            &self.issued,
            &self.mail.inbox,
        );
        Ok(())
    }
}
