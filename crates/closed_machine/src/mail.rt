//! The messages and counts that a seat left in a closed machine, looked up by the seat's number.
ghost use Rattle.std.specs.Prelude.{◌≡◌, ◌<◌};
ghost use Rattle.seat_rule.specs.Rule.{seat_count};
ghost use Rattle.closed_machine.specs.RunParts.{Parts};
ghost use Rattle.closed_machine.specs.RunSums.{Left};

use crate::numbered::{Numbered, find_by_number};
use crate::outbox::Outbox;
use crate::parts::{BankPart, CorePart};
use crate::run::Run;
use inbox::Inbox;
use network::Message;

impl Numbered for CorePart {
    ghost number = { λ p. p.number };

    fn number(&self) -> u32 {
        self.number
    }
}

impl Numbered for BankPart {
    ghost number = { λ p. p.number };

    fn number(&self) -> u32 {
        self.number
    }
}

impl Run {
    /// What the seat of this number left: the messages to be put with what it counted, and the messages that came in.
    pub(crate) fn mail(&self, number: u32) -> (&Outbox, &Inbox<Message>)
        requires parts { Parts self.now }
        requires seat { number < seat_count self.now.set_up }
        ensures { Left self.now number result.0.now result.1.now }
    {
        if number < self.set_up.config.cores {
            let at = find_by_number(self.cores.as_slice(), number);
            let part = &self.cores[at];
            return (&part.outbox, &part.inbox);
        }
        let at = find_by_number(self.banks.as_slice(), number);
        let part = &self.banks[at];
        (&part.outbox, &part.inbox)
    }
}
