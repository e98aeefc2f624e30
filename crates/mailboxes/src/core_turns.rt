//! A core's seat has turns.
ghost use Rattle.std.specs.Prelude.{◌≡◌, ◌≢◌, ◌≤◌, Err, IfOk};
ghost use Rattle.mailboxes.specs.CoreTurns.{CoreTurns};
ghost use Rattle.mailboxes.specs.Seats.{IsCoreSeat};

use crate::core_seat::CoreSeat;
use crate::machine::Machine;
use crate::taken::Take;
use crate::turning::{Turn, Turner, seat_turn};
use inbox::Served;
use machine_table::Refusal;

impl Turner for CoreSeat {
    ghost use Rattle.mailboxes.specs.CoreTurns.{CorePuts, CoreServes, CoreTakes, core_hand, core_number, core_to_put};
    ghost use Rattle.mailboxes.specs.Seats.{IsCoreSeat};

    ghost is_here = { IsCoreSeat };

    ghost puts = { CorePuts };

    ghost serves = { CoreServes };

    ghost takes = { CoreTakes };

    ghost full = { core_hand };

    ghost waiting = { core_to_put };

    ghost number = { core_number };

    fn put_message(&mut self, machine: &Machine) -> bool {
        self.put(machine)
    }

    #[inline(always)]
    fn serve_message(&mut self, machine: &Machine) -> Result<Served, Refusal> {
        self.serve(machine)
    }

    fn take_message(&mut self, machine: &Machine) -> Take {
        self.take(machine)
    }

    fn hand_is_full(&self) -> bool {
        self.mail.hand_is_full()
    }

    fn messages_to_put(&self) -> u32 {
        self.part.outbox.len()
    }
}

impl CoreSeat {
    /// A turn: puts messages until none is left whose link has a free slot, and then serves. It serves the message in
    /// a full hand. With an empty hand it serves a held message; if none is served, it takes a message and serves
    /// that.
    ///
    /// A refusal is that of the last serve; what was put, served or taken before it stays so. The call never answers
    /// NoMemory.
    pub fn turn(&mut self, machine: &Machine) -> Result<Turn, Refusal>
        requires { IsCoreSeat machine.now self.old }
        ensures seat { IsCoreSeat machine.now self.new × (self.new.mail.number ≡ self.old.mail.number) }
        ensures turns { CoreTurns machine.now self.old result self.new }
        ensures within { IfOk result (λ turn. turn.put ≤ 256) }
        ensures memory { result ≢ Err Refusal.NoMemory }
    {
        seat_turn(self, machine)
    }
}
