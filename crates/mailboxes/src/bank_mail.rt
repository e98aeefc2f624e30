//! The messages of a bank's seat are served, and its lines evicted.
ghost use Rattle.std.specs.Prelude.{◌≡◌, OnOk, OnErr, Err, false};
ghost use Rattle.llc_bank.specs.BankTable.{evict};
ghost use Rattle.mailboxes.specs.BankCalls.{Evicts, IsBankMail, PartOf, SameMailPlace, ServesStore, bank_evict_answer};
ghost use Rattle.mailboxes.specs.BankServing.{sending_bank_table, sending_bank_takes_memory};
ghost use Rattle.mailboxes.specs.BoxMoves.{hold};
ghost use Rattle.mailboxes.specs.Stored.{stored_bank};
ghost use Rattle.inbox.specs.Serving.{Serves};
ghost use Rattle.inbox.specs.declared.answer.Refusal.TheVariants.{NoMemory};

use crate::bank_evicting::{Eviction, check_line_evictable, evict_line};
use crate::changes::{change_bank_hold, change_bank_hold_if, serving_may_change};
use crate::machine::Machine;
use crate::mailbox::Mailbox;
use crate::part_serving::serve_part;
use crate::sending::SendingBank;
use inbox::Served;
use machine_table::Refusal;
use machine_theorem::move_laws::waiting_banks_stay;
use network::LineNo;
use seat_rule::parts::{messages_of_seats_find_their_parts, parts_of_seats_have_their_shape};

impl Mailbox {
    /// Serves a message of a bank's seat by its part.
    #[inline(always)]
    pub(crate) fn serve_bank(
        &mut self,
        machine: &Machine,
        part: &mut SendingBank,
    ) -> Result<Served, inbox::Refusal>
        requires seat { IsBankMail machine.now self.old }
        requires part { PartOf self.old part.old }
        ensures seat { IsBankMail machine.now self.new × SameMailPlace self.old self.new }
        ensures part { PartOf self.new part.new }
        ensures served { Serves sending_bank_table sending_bank_takes_memory self.old.inbox part.old
            result self.new.inbox part.new }
        ensures hold { hold self.new ≡ stored_bank (hold self.old) part.new self.new.inbox }
        ensures memory { result ≡ Err NoMemory → ServesStore self.old.inbox part.old }
    {
        waiting_banks_stay();
        messages_of_seats_find_their_parts();
        parts_of_seats_have_their_shape();
        let was_full = self.hand_is_full();
        let served = serve_part(&mut self.inbox, part);
        let changes = serving_may_change(was_full, &served);
        change_bank_hold_if(changes, machine, &mut self.seat, part, &self.inbox);
        served
    }

    /// Evicts a line from the bank of a seat.
    pub(crate) fn evict_bank(
        &mut self,
        machine: &Machine,
        part: &mut SendingBank,
        line: LineNo,
    ) -> Result<Eviction, Refusal>
        requires seat { IsBankMail machine.now self.old }
        requires part { PartOf self.old part.old }
        ensures seat { IsBankMail machine.now self.new × SameMailPlace self.old self.new }
        ensures part { PartOf self.new part.new }
        ensures answer { result ≡ bank_evict_answer false part.old.outbox self.old.inbox.held
            (evict part.old.bank line).0 }
        ensures done { OnOk result (Evicts (evict part.old.bank line) self.old.inbox part.old
            self.new.inbox part.new) }
        ensures refused { OnErr result ((self.new.inbox ≡ self.old.inbox) × (part.new ≡ part.old)) }
        ensures hold { hold self.new ≡ stored_bank (hold self.old) part.new self.new.inbox }
    {
        messages_of_seats_find_their_parts();
        parts_of_seats_have_their_shape();
        if let Err(refusal) = check_line_evictable(part, &self.inbox, line) {
            return Err(refusal);
        }
        let eviction = evict_line(part, &mut self.inbox, line);
        change_bank_hold(machine, &mut self.seat, part, &self.inbox);
        Ok(eviction)
    }
}
