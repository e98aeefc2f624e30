//! A core's seat attempts its open operation.
ghost use Rattle.std.specs.Prelude.{◌≡◌, ◌≢◌, false};
ghost use Rattle.core_pts.specs.CoreTable as core_table;
ghost use Rattle.mailboxes.specs.Attempts.{Asks, Attempts, AttemptsSo, Tries, sent_if_room, tried};
ghost use Rattle.mailboxes.specs.CoreCalls.{SamePlace};
ghost use Rattle.mailboxes.specs.Seats.{IsCoreSeat};

use crate::changes::change_core_hold;
use crate::completions::complete_operation;
use crate::core_seat::CoreSeat;
use crate::machine::Machine;
use crate::outcome::{Completion, Outcome};
use core_pts::laws::{completed_on_a_copy, nothing_completed_keeps};
use core_pts::{Attempt, Core};
use machine_table::{Answer, Refusal};
use network::{Body, Message};
use physiological_order::{Op, Record};
use seat_rule::parts::messages_of_seats_find_their_parts;
use timestamp_manager::Exhausted;

// What an attempt comes to by the core's table. The core is changed only if the operation is completed.
fn attempt_core_operation(core: &mut Core) -> Outcome
    ensures outcome { result ≡ tried core.old }
    ensures core { Tries core.old result core.new }
{
    nothing_completed_keeps();
    completed_on_a_copy();
    let Some((op, _)) = core.open_op() else {
        return Outcome::Keeps(Answer::Idle);
    };
    let given = &op;
    let place = core.issued().saturating_sub(1);
    let line = core.line_of(*given);
    match core.attempt() {
        Ok(Attempt::Completed(received, ts)) => Outcome::Completes(Completion {
            op: *given,
            place,
            received,
            ts,
        }),
        Ok(Attempt::NeedShared(pts, version)) => Outcome::Requests(core.to_bank(
            line,
            Body::ShReq { pts, version },
        )),
        Ok(Attempt::NeedExclusive(version)) => Outcome::Requests(core.to_bank(
            line,
            Body::ExReq { version },
        )),
        Ok(Attempt::NoRoom) => Outcome::Keeps(Answer::Refused(Refusal::NoRoom)),
        Ok(Attempt::Waiting) => Outcome::Keeps(Answer::Waiting),
        Ok(Attempt::Idle) => Outcome::Keeps(Answer::Idle),
        Err(Exhausted) => Outcome::Exhausts,
    }
}

// The record of a completed operation.
fn record_of_completion(core: u32, done: &Completion, number: u64) -> Record
    ensures { result ≡ record {
      core = core;
      place = done.now.place;
      op = done.now.op;
      received = done.now.received;
      ts = done.now.ts;
      number = number;
    } }
{
    Record {
        core,
        place: done.place,
        op: done.op,
        received: done.received,
        ts: done.ts,
        number,
    }
}

impl CoreSeat {
    /// Attempts the open operation, by the core's table: completes it, or sends the request that it needs. Number,
    /// record and copy of a completion change in one exchange.
    ///
    /// Stopped exactly if the seat is stopped; else NoRoom exactly if a request is needed, but there is no copy of the
    /// line and its set is full; else NetworkFull exactly if a request is needed, and the outbox has no place or the
    /// seat sent 2 ^ 64 - 1 messages. These refusals change nothing. Exhausted exactly if a sum of times doesn't fit:
    /// the seat is then stopped, and nothing else changes. The call never answers NoMemory.
    #[inline(always)]
    pub fn attempt(&mut self, machine: &Machine) -> Answer
        requires { IsCoreSeat machine.now self.old }
        ensures seat { IsCoreSeat machine.now self.new × SamePlace self.old self.new }
        ensures attempt { Attempts machine.now self.old result self.new }
        ensures sure { result ≢ Answer.Refused Refusal.NoMemory }
    {
        if self.is_stopped {
            return Answer::Refused(Refusal::Stopped);
        }
        if self.part.core.is_waiting() {
            return Answer::Waiting;
        }
        self.attempt_open(machine)
    }

    // The same of a seat that goes on: a call of its own, since most attempts find a core that waits for its line.
    #[inline(never)]
    fn attempt_open(&mut self, machine: &Machine) -> Answer
        requires seat { IsCoreSeat machine.now self.old }
        requires goes_on { self.old.is_stopped ≡ false }
        ensures seat { IsCoreSeat machine.now self.new × SamePlace self.old self.new }
        ensures attempt { Attempts machine.now self.old result self.new }
        ensures sure { result ≢ Answer.Refused Refusal.NoMemory }
    {
        match attempt_core_operation(&mut self.part.core) {
            Outcome::Keeps(answer) => answer,
            Outcome::Exhausts => {
                self.is_stopped = true;
                Answer::Refused(Refusal::Exhausted)
            }
            Outcome::Requests(request) => self.send_request(machine, request),
            Outcome::Completes(done) => {
                let word = machine.table.slot_count();
                let number = complete_operation(
                    &machine.table.shared,
                    &mut self.mail.seat,
                    word,
                    &done.op,
                    done.received,
                    done.ts,
                    &self.part.core,
                );
                let record = record_of_completion(self.mail.number, &done, number);
                self.records.push_reserved(record);
                Answer::Completed(record_of_completion(self.mail.number, &done, number))
            }
        }
    }

    // Sends the request that the open operation needs, if it can be sent.
    fn send_request(&mut self, machine: &Machine, request: Message) -> Answer
        requires seat { IsCoreSeat machine.now self.old }
        requires asks { Asks self.old.part.core request }
        ensures seat { IsCoreSeat machine.now self.new × SamePlace self.old self.new }
        ensures asked { AttemptsSo machine.now self.old result self.new
            (sent_if_room self.old.part.outbox (Outcome.Requests request)) }
        ensures sure { result ≢ Answer.Refused Refusal.NoMemory }
    {
        messages_of_seats_find_their_parts();
        if !self.part.outbox.can_send_out() {
            return Answer::Refused(Refusal::NetworkFull);
        }
        self.part.core.requested();
        self.part.outbox.send(request);
        change_core_hold(
            machine,
            &mut self.mail.seat,
            &self.part,
            &self.issued,
            &self.mail.inbox,
        );
        Answer::Requested
    }
}
