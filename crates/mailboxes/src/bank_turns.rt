//! A bank's seat has turns.
ghost use Rattle.std.specs.Prelude.{◌≡◌, ◌≤◌, IfOk};
ghost use Rattle.mailboxes.specs.BankTurns.{BankTurns};
ghost use Rattle.mailboxes.specs.Seats.{IsBankSeat};

use crate::bank_seat::BankSeat;
use crate::machine::Machine;
use crate::taken::Take;
use crate::turning::{Turn, Turner, seat_turn};
use inbox::Served;
use machine_table::Refusal;

impl Turner for BankSeat {
    ghost use Rattle.mailboxes.specs.BankTurns.{BankPuts, BankServes, BankTakes, bank_hand, bank_number, bank_to_put};
    ghost use Rattle.mailboxes.specs.Seats.{IsBankSeat};

    ghost is_here = { IsBankSeat };

    ghost puts = { BankPuts };

    ghost serves = { BankServes };

    ghost takes = { BankTakes };

    ghost full = { bank_hand };

    ghost waiting = { bank_to_put };

    ghost number = { bank_number };

    fn put_message(&mut self, machine: &Machine) -> bool {
        self.put(machine)
    }

    #[inline(always)]
    fn serve_message(&mut self, machine: &Machine) -> Result<Served, Refusal> {
        self.serve(machine)
    }

    fn take_message(&mut self, machine: &Machine) -> Take {
        self.take(machine)
    }

    fn hand_is_full(&self) -> bool {
        self.mail.hand_is_full()
    }

    fn messages_to_put(&self) -> u32 {
        self.part.outbox.len()
    }
}

impl BankSeat {
    /// A turn: puts messages until none is left whose link has a free slot, and then serves. It serves the message in
    /// a full hand. With an empty hand it serves a held message; if none is served, it takes a message and serves
    /// that.
    ///
    /// A refusal is that of the last serve; what was put, served or taken before it stays so.
    pub fn turn(&mut self, machine: &Machine) -> Result<Turn, Refusal>
        requires { IsBankSeat machine.now self.old }
        ensures seat { IsBankSeat machine.now self.new × (self.new.mail.number ≡ self.old.mail.number) }
        ensures turns { BankTurns machine.now self.old result self.new }
        ensures within { IfOk result (λ turn. turn.put ≤ 256) }
    {
        seat_turn(self, machine)
    }
}
