//! A core's seat and a bank's seat put and take messages.
ghost use Rattle.std.specs.Prelude.{◌≡◌};
ghost use Rattle.mailboxes.specs.BoxMoves.{Puts, Stays, Takes};
ghost use Rattle.mailboxes.specs.Seats.{IsBankSeat, IsCoreSeat, SameBankPart, SameCorePart};

use crate::bank_seat::BankSeat;
use crate::core_seat::CoreSeat;
use crate::machine::Machine;
use crate::taken::Take;

impl CoreSeat {
    /// Puts the oldest message of the outbox whose link has a free slot; false if there is no such message.
    pub fn put(&mut self, machine: &Machine) -> bool
        requires { IsCoreSeat machine.now self.old }
        ensures seat { IsCoreSeat machine.now self.new × SameCorePart self.old self.new }
        ensures mail { Stays self.old.mail self.new.mail }
        ensures put { Puts result self.old.mail self.old.part.outbox.messages self.new.mail
            self.new.part.outbox.messages }
    {
        self.mail.put(machine, self.part.outbox.queue())
    }

    /// Takes the first message that came in, from the cursor on and going round, into the empty hand.
    pub fn take(&mut self, machine: &Machine) -> Take
        requires { IsCoreSeat machine.now self.old }
        ensures seat { IsCoreSeat machine.now self.new × SameCorePart self.old self.new }
        ensures mail { Stays self.old.mail self.new.mail }
        ensures outbox { self.new.part.outbox ≡ self.old.part.outbox }
        ensures taken { Takes machine.now.set_up result self.old.mail self.new.mail }
    {
        self.mail.take(machine)
    }
}

impl BankSeat {
    /// Puts the oldest message of the outbox whose link has a free slot; false if there is no such message.
    pub fn put(&mut self, machine: &Machine) -> bool
        requires { IsBankSeat machine.now self.old }
        ensures seat { IsBankSeat machine.now self.new × SameBankPart self.old self.new }
        ensures mail { Stays self.old.mail self.new.mail }
        ensures put { Puts result self.old.mail self.old.part.outbox.messages self.new.mail
            self.new.part.outbox.messages }
    {
        self.mail.put(machine, self.part.outbox.queue())
    }

    /// Takes the first message that came in, from the cursor on and going round, into the empty hand.
    pub fn take(&mut self, machine: &Machine) -> Take
        requires { IsBankSeat machine.now self.old }
        ensures seat { IsBankSeat machine.now self.new × SameBankPart self.old self.new }
        ensures mail { Stays self.old.mail self.new.mail }
        ensures outbox { self.new.part.outbox ≡ self.old.part.outbox }
        ensures taken { Takes machine.now.set_up result self.old.mail self.new.mail }
    {
        self.mail.take(machine)
    }
}
