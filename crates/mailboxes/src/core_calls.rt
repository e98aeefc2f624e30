//! What a core's seat does with its core alone: it issues an operation, advances the core's time, and answers look-ups
//! of the core.
ghost use Rattle.std.specs.Prelude.{◌≡◌, ◌||◌, ◌<◌, ◌≤◌, ◌++◌, ◌∷◌, [], true, is_none, length, option_map};
ghost use Rattle.std.specs.Prelude.{◌≢◌, ◌⊎◌, false, Err, OnOk, OnErr, vec_capacity};
ghost use Rattle.physiological_order.specs.declared.operation.Op.{Op};
ghost use Rattle.private_cache.specs.CopyTable.{victim_for};
ghost use Rattle.core_pts.specs.CoreTable as core_table;
ghost use Rattle.mailboxes.specs.BoxMoves.{hold};
ghost use Rattle.mailboxes.specs.CoreCalls.{IssueAnswers, SamePlace, advance_answer, core_hold, issue_answer};
ghost use Rattle.mailboxes.specs.Seats.{IsCoreSeat};

use crate::changes::change_core_hold;
use crate::core_seat::CoreSeat;
use crate::machine::Machine;
use core_pts::Core;
use machine_table::Refusal;
use network::LineNo;
use physiological_order::{Op, Record};

// Makes room for one more in both lists; false if one of them is full and allocation failed.
fn make_room_for_operation(issued: &mut Vec<Op>, records: &mut Vec<Record>) -> bool
    ensures issued { (issued.new.items ≡ issued.old.items) ×
        (result ≡ true → length issued.new.items < vec_capacity issued.new) }
    ensures records { (records.new.items ≡ records.old.items) ×
        (result ≡ true → length records.new.items < vec_capacity records.new) }
    ensures kept { vec_capacity records.old ≤ vec_capacity records.new }
    ensures wanted { result ≡ false → (vec_capacity issued.old ≤ length issued.old.items)
        ⊎ (vec_capacity records.old ≤ length records.old.items) }
{
    let one_more = issued.reserve(1).is_ok();
    let one_record_more = records.reserve(1).is_ok();
    one_more && one_record_more
}

// Whether a core's seat can be given an operation, and why not; of lists it says nothing.
fn may_issue(is_stopped: bool, core: &Core) -> Result<(), Refusal>
    ensures answer { (op : Op) →
        result ≡ issue_answer is_stopped (core_table.issue core.now op).0 }
    ensures sure { result ≢ Err Refusal.NoMemory }
{
    if is_stopped {
        return Err(Refusal::Stopped);
    }
    if core.open_op().is_some() {
        return Err(Refusal::Busy);
    }
    if core.issued() == u32::MAX {
        return Err(Refusal::TooMany);
    }
    Ok(())
}

impl CoreSeat {
    /// The open operation, and whether its request is out.
    pub fn open_op(&self) -> Option<(Op, bool)>
        ensures { result ≡
            option_map (λ op. (op, self.now.part.core.is_out)) self.now.part.core.open_op }
    {
        self.part.core.open_op()
    }

    /// The copy to evict to make room for a line: the least recently used one of its set, exactly if there is no place
    /// for the line.
    pub fn victim(&self, line: LineNo) -> Option<LineNo>
        ensures { result ≡ victim_for self.now.part.core.cache line }
    {
        self.part.core.victim(line)
    }

    /// Gives the core its next operation, which is open then. Stopped exactly if the seat is stopped; else Busy
    /// exactly if an operation is open; else TooMany exactly if the core was issued 4,294,967,295 operations; else
    /// NoMemory only if the list of operations or that of records is full and allocation failed. A refusal changes
    /// nothing.
    pub fn issue(&mut self, machine: &Machine, op: Op) -> Result<(), Refusal>
        requires { IsCoreSeat machine.now self.old }
        ensures seat { IsCoreSeat machine.now self.new × SamePlace self.old self.new }
        ensures outbox { self.new.part.outbox ≡ self.old.part.outbox }
        ensures answer { IssueAnswers self.old.is_stopped
            (core_table.issue self.old.part.core op).0 result }
        ensures done { OnOk result (hold self.new.mail ≡ core_hold (hold self.old.mail)
            (core_table.issue self.old.part.core op).1 (self.old.issued.items ++ op ∷ [])) }
        ensures refused { OnErr result (hold self.new.mail ≡ hold self.old.mail) }
        ensures stopped { self.new.is_stopped ≡ self.old.is_stopped }
        ensures memory { result ≡ Err Refusal.NoMemory →
            (vec_capacity self.old.issued ≤ length self.old.issued.items)
            ⊎ (vec_capacity self.old.records ≤ length self.old.records.items) }
    {
        may_issue(self.is_stopped, &self.part.core)?;
        if !make_room_for_operation(&mut self.issued, &mut self.records) {
            return Err(Refusal::NoMemory);
        }
        let given = &op;
        let issued = self.part.core.issue(*given);
        issued.unwrap();
        self.issued.push_reserved(*given);
        change_core_hold(
            machine,
            &mut self.mail.seat,
            &self.part,
            &self.issued,
            &self.mail.inbox,
        );
        Ok(())
    }

    /// Advances the core's time by 1. Exhausted exactly if that doesn't fit 64 bits: the seat is then stopped, and
    /// nothing else changes. Stopped exactly if it was stopped before.
    pub fn advance(&mut self, machine: &Machine) -> Result<(), Refusal>
        requires { IsCoreSeat machine.now self.old }
        ensures seat { IsCoreSeat machine.now self.new × SamePlace self.old self.new }
        ensures outbox { self.new.part.outbox ≡ self.old.part.outbox }
        ensures answer { result ≡
            advance_answer self.old.is_stopped (core_table.advance self.old.part.core).0 }
        ensures done { OnOk result (hold self.new.mail ≡ core_hold (hold self.old.mail)
            (core_table.advance self.old.part.core).1 self.old.issued.items) }
        ensures refused { OnErr result (hold self.new.mail ≡ hold self.old.mail) }
        ensures stopped { self.new.is_stopped ≡
            (self.old.is_stopped || is_none (core_table.advance self.old.part.core).0) }
    {
        if self.is_stopped {
            return Err(Refusal::Stopped);
        }
        match self.part.core.advance() {
            Err(_) => {
                self.is_stopped = true;
                Err(Refusal::Exhausted)
            }
            Ok(()) => {
                change_core_hold(
                    machine,
                    &mut self.mail.seat,
                    &self.part,
                    &self.issued,
                    &self.mail.inbox,
                );
                Ok(())
            }
        }
    }
}
