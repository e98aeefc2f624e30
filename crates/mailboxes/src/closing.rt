//! The end: all seats are joined, and leave what they stored.
ghost use Rattle.std.specs.Prelude.{◌≡◌, ℕ, List, ◌+◌, ◌<◌, ◌≤◌, false, [], ◌∷◌, ◌++◌, length, map, IfOk};
ghost use Rattle.std.specs.Prelude.{Some, slice_get, vec_capacity};
ghost use Rattle.physiological_order.specs.declared.operation.Record.{Record};
ghost use Rattle.machine_table.specs.SetUp.{is_good};
ghost use Rattle.closed_machine.specs.PartsOfState.{PartsOfState};
ghost use Rattle.mailboxes.specs.Places.{Belongs};
ghost use Rattle.mailboxes.specs.Seats.{AllCoreSeats, AllBankSeats, AreAll};
ghost use Rattle.mailboxes.specs.Remains.{OneState, backwards, bank_part, core_part, entry, knows_all};

use crate::bank_seat::BankSeat;
use crate::core_seat::CoreSeat;
use crate::machine::Machine;
use crate::mailbox::Mailbox;
use crate::sending::{SendingBank, SendingCore};
use crate::steps::{SlotSeat, SlotTable, join_view};
use closed_machine::{
    BankPart, ClosedMachine, CorePart, Run, merge_core_records, take_slot_messages,
};
use seat_rule::laws::{closed_machines_are_one_state, links_lose_and_double_nothing};
use std::alloc::{AllocError, Global};

impl Machine {
    /// Gives up the machine and all its seats, and answers what they leave, with the records of all cores by number.
    /// That is one state that moves reach from the opening, and it is consistent. AllocError if memory for what is
    /// left can't be allocated; then the call drops all.
    pub fn close(
        self,
        alloc: Global,
        cores: Vec<CoreSeat>,
        banks: Vec<BankSeat>,
    ) -> Result<Run, AllocError>
        requires cores { AllCoreSeats self cores.items }
        requires banks { AllBankSeats self banks.items }
        requires whole { AreAll self cores.items banks.items }
        ensures set_up { IfOk result (λ r. r.set_up ≡ self.set_up) }
        ensures cores { IfOk result (λ r. r.cores.items ≡ map core_part cores.items) }
        ensures banks { IfOk result (λ r. r.banks.items ≡ map bank_part banks.items) }
        ensures state { IfOk result (λ r. OneState self.set_up cores.items banks.items
            r.records.items r.slots.items) }
        ensures parts { IfOk result (λ r. PartsOfState self.set_up r.cores.items r.banks.items
            r.slots.items r.records.items) }
    {
        let left = self.close_seats(alloc, cores, banks)?;
        let records = merge_core_records(alloc, &left)?;
        let ClosedMachine {
            set_up,
            cores,
            banks,
            slots,
            ..
        } = left;
        Ok(Run {
            set_up,
            cores,
            banks,
            slots,
            records,
        })
    }

    // What the machine and all its seats leave.
    fn close_seats(
        self,
        alloc: Global,
        mut cores: Vec<CoreSeat>,
        banks: Vec<BankSeat>,
    ) -> Result<ClosedMachine, AllocError>
        requires cores { AllCoreSeats self cores.items }
        requires banks { AllBankSeats self banks.items }
        requires whole { AreAll self cores.items banks.items }
        ensures set_up { IfOk result (λ r. r.set_up ≡ self.set_up) }
        ensures cores { IfOk result (λ r. r.cores.items ≡ map core_part cores.items) }
        ensures banks { IfOk result (λ r. r.banks.items ≡ map bank_part banks.items) }
        ensures state { IfOk result (λ r. (log : List Record) × (length log ≡ r.count) ×
            OneState self.set_up cores.items banks.items log r.slots.items) }
    {
        closed_machines_are_one_state();
        links_lose_and_double_nothing();
        let mut core_parts = Vec::with_capacity(alloc, cores.len())?;
        let mut bank_parts = Vec::with_capacity(alloc, banks.len())?;
        let mut slots = Vec::with_capacity(alloc, self.table.slot_count())?;
        let Machine { table, set_up } = self;
        let first = cores.pop();
        let first = first.unwrap();
        let mut seat = first.leave_part(&mut core_parts);
        join_seats(&table.shared, &mut seat, cores, &mut core_parts);
        join_seats(&table.shared, &mut seat, banks, &mut bank_parts);
        core_parts.reverse();
        bank_parts.reverse();
        let last = table.slot_count();
        let closed = table.close_with(seat);
        let count = closed.word(last);
        take_slot_messages(closed, &mut slots);
        Ok(ClosedMachine {
            set_up,
            cores: core_parts,
            banks: bank_parts,
            slots,
            count,
        })
    }
}

// A seat that is given up: it gives its seat at the table, and what it stores becomes a part.
trait Leaver<Q> {
    ghost use Rattle.mailboxes.specs.declared.mailbox.Mailbox.{Mailbox};

    ghost mail: { Self → Mailbox };

    ghost part: { Self → Q };

    // Puts what the seat stores at the end of a list, and gives its seat at the table.
    fn leave_part(self, parts: &mut Vec<Q>) -> SlotSeat
        requires { length parts.old.items < vec_capacity parts.old }
        ensures slot_seat { result ≡ (mail self).seat }
        ensures part { parts.new.items ≡ parts.old.items ++ part self ∷ [] }
        ensures room { vec_capacity parts.new ≡ vec_capacity parts.old };
}

impl Leaver<CorePart> for CoreSeat {
    ghost use Rattle.mailboxes.specs.Remains.{core_part};

    ghost mail = { λ p. p.mail };

    ghost part = { core_part };

    fn leave_part(self, parts: &mut Vec<CorePart>) -> SlotSeat {
        let CoreSeat {
            mail,
            part,
            issued,
            records,
            is_stopped,
            ..
        } = self;
        let Mailbox {
            seat,
            number,
            inbox,
            ..
        } = mail;
        let SendingCore { core, outbox } = part;
        parts.push_reserved(CorePart {
            number,
            core,
            issued,
            records,
            outbox,
            inbox,
            is_stopped,
        });
        seat
    }
}

impl Leaver<BankPart> for BankSeat {
    ghost use Rattle.mailboxes.specs.Remains.{bank_part};

    ghost mail = { λ p. p.mail };

    ghost part = { bank_part };

    fn leave_part(self, parts: &mut Vec<BankPart>) -> SlotSeat {
        let BankSeat {
            mail,
            part,
            is_stopped,
            ..
        } = self;
        let Mailbox {
            seat,
            number,
            inbox,
            ..
        } = mail;
        let SendingBank { bank, dram, outbox } = part;
        parts.push_reserved(BankPart {
            number,
            bank,
            dram,
            outbox,
            inbox,
            is_stopped,
        });
        seat
    }
}

// Joins seats from the last to the first.
fn join_seats<S: Leaver<Q> + Drop, Q: Drop>(
    table: &SlotTable,
    seat: &mut SlotSeat,
    mut seats: Vec<S>,
    parts: &mut Vec<Q>,
)
    requires table { Belongs seat.old.table_id table.now.table_id table.now.key }
    requires seats { (i : ℕ) (p : S) → slice_get seats.items i ≡ Some p →
        (S.mail p).seat.table_id ≡ table.now.table_id }
    requires live { seat.old.me.0.spent ≡ false }
    requires room { length parts.old.items + length seats.items ≤ vec_capacity parts.old }
    ensures table { (seat.new.table_id ≡ seat.old.table_id) × (seat.new.id ≡ seat.old.id) }
    ensures met { seat.new.me ≡ (
      knows_all seat.old.me.0 (backwards (λ p. entry (S.mail p)) seats.items),
      seat.old.me.1,
    ) }
    ensures parts { parts.new.items ≡ parts.old.items ++ backwards S.part seats.items }
{
    while let Some(port) = seats.pop() {
        let other = port.leave_part(parts);
        join_view(table, seat, other);
    }
}
