//! A core's seat serves messages.
ghost use Rattle.std.specs.Prelude.{◌≡◌, ◌≢◌, ◌||◌, Err};
ghost use Rattle.mailboxes.specs.BankCalls.{SameMailPlace};
ghost use Rattle.mailboxes.specs.BoxMoves.{hold};
ghost use Rattle.mailboxes.specs.CoreCalls.{SamePlace};
ghost use Rattle.mailboxes.specs.CoreServing.{CorePartOf, IsCoreMail, sending_core_table, sending_core_takes_memory};
ghost use Rattle.mailboxes.specs.SeatServing.{SeatServes, is_exhausted};
ghost use Rattle.mailboxes.specs.Seats.{IsCoreSeat};
ghost use Rattle.mailboxes.specs.Stored.{stored_core};
ghost use Rattle.inbox.specs.Serving.{Serves};
ghost use Rattle.inbox.specs.declared.answer.Refusal.TheVariants.{NoMemory};

use crate::bank_calls::seat_refusal;
use crate::changes::{change_core_hold_if, serving_may_change};
use crate::core_seat::CoreSeat;
use crate::machine::Machine;
use crate::mailbox::Mailbox;
use crate::part_serving::serve_part;
use crate::sending::SendingCore;
use inbox::Served;
use machine_table::Refusal;
use machine_theorem::move_laws::waiting_cores_stay;
use physiological_order::Op;
use seat_rule::parts::messages_of_seats_find_their_parts;

impl Mailbox {
    /// Serves a message of a core's seat by its part.
    #[inline(always)]
    pub(crate) fn serve_core(
        &mut self,
        machine: &Machine,
        part: &mut SendingCore,
        issued: &Vec<Op>,
    ) -> Result<Served, inbox::Refusal>
        requires seat { IsCoreMail machine.now self.old }
        requires part { CorePartOf self.old part.old issued.now.items }
        ensures seat { IsCoreMail machine.now self.new × SameMailPlace self.old self.new }
        ensures part { CorePartOf self.new part.new issued.now.items }
        ensures served { Serves sending_core_table sending_core_takes_memory self.old.inbox part.old
            result self.new.inbox part.new }
        ensures hold { hold self.new ≡
            stored_core (hold self.old) part.new issued.now.items self.new.inbox }
        ensures open { part.new.core.open_op ≡ part.old.core.open_op }
        ensures memory { result ≢ Err NoMemory }
    {
        waiting_cores_stay();
        messages_of_seats_find_their_parts();
        let was_full = self.hand_is_full();
        let served = serve_part(&mut self.inbox, part);
        let changes = serving_may_change(was_full, &served);
        change_core_hold_if(changes, machine, &mut self.seat, part, issued, &self.inbox);
        served
    }
}

impl CoreSeat {
    /// Serves a message: the one in the hand, or else the oldest held one that isn't passed, by the order of
    /// docs/SEATS.md. It is delivered to the core, and what the core sends goes to the outbox.
    ///
    /// Stopped exactly if the seat is stopped. NetworkFull if no message is served and one finds no place: in the held
    /// list, or in the outbox for what the core would send, or the seat sent 2^64 - 1 messages. Exhausted if a sum of
    /// times doesn't fit 64 bits: the seat is then stopped. The call never answers NoMemory. A refusal changes nothing
    /// else.
    #[inline(always)]
    pub fn serve(&mut self, machine: &Machine) -> Result<Served, Refusal>
        requires { IsCoreSeat machine.now self.old }
        ensures seat { IsCoreSeat machine.now self.new × SamePlace self.old self.new }
        ensures served { SeatServes sending_core_table sending_core_takes_memory
            self.old.is_stopped self.old.mail.inbox self.old.part result self.new.mail.inbox
            self.new.part }
        ensures hold { hold self.new.mail ≡ stored_core (hold self.old.mail) self.new.part
            self.old.issued.items self.new.mail.inbox }
        ensures stopped { self.new.is_stopped ≡ (self.old.is_stopped || is_exhausted result) }
        ensures memory { result ≢ Err Refusal.NoMemory }
    {
        if self.is_stopped {
            return Err(Refusal::Stopped);
        }
        match self.mail.serve_core(machine, &mut self.part, &self.issued) {
            Err(refusal) => {
                self.is_stopped = matches!(refusal, inbox::Refusal::Exhausted);
                Err(seat_refusal(refusal))
            }
            Ok(served) => Ok(served),
        }
    }
}
