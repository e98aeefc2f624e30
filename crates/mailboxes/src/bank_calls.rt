//! A bank's seat serves messages, evicts lines, and says which line to evict.
ghost use Rattle.std.specs.Prelude.{◌≡◌, ◌≢◌, ◌||◌, OnOk, OnErr, IfSome, IsOk, Err};
ghost use Rattle.llc_bank.specs.BankTable.{evict};
ghost use Rattle.mailboxes.specs.BankCalls.{Evicts, SameBankPlace, ServesStore, bank_evict_answer, first_room};
ghost use Rattle.mailboxes.specs.BankCalls.{room_for};
ghost use Rattle.mailboxes.specs.BankServing.{sending_bank_table, sending_bank_takes_memory};
ghost use Rattle.mailboxes.specs.BoxMoves.{hold};
ghost use Rattle.mailboxes.specs.SeatServing.{SeatServes, is_exhausted, seat_refusal};
ghost use Rattle.mailboxes.specs.Seats.{IsBankSeat};
ghost use Rattle.mailboxes.specs.Stored.{stored_bank};

use crate::bank_evicting::Eviction;
use crate::bank_seat::BankSeat;
use crate::machine::Machine;
use inbox::{MessageTest, Served};
use llc_bank::Bank;
use machine_table::Refusal;
use network::{Body, LineNo, Message};

/// Why no message was served, as a seat answers it.
pub(crate) fn seat_refusal(refusal: inbox::Refusal) -> Refusal
    ensures { result ≡ seat_refusal refusal }
{
    match refusal {
        inbox::Refusal::Full => Refusal::NetworkFull,
        inbox::Refusal::NoMemory => Refusal::NoMemory,
        inbox::Refusal::Exhausted => Refusal::Exhausted,
    }
}

// The line to evict to make room for a held message, if it is a request that waits for room.
fn victim_for_request(bank: &Bank, message: &Message) -> Option<LineNo>
    ensures line { result ≡ room_for bank.now message.now }
    ensures evicted { IfSome result (λ victim. IsOk (evict bank.now victim).0) }
{
    match message.body {
        Body::ShReq { .. } | Body::ExReq { .. } => bank.make_room(message.line),
        _ => None,
    }
}

// Whether there is a line to evict to make room for a held message.
#[derive(Drop)]
struct RoomTest<'a> {
    bank: &'a Bank,
}

impl MessageTest<Message> for RoomTest<'_> {
    ghost use Rattle.std.specs.Prelude.{is_some};
    ghost use Rattle.mailboxes.specs.BankCalls.{room_for};

    ghost passes = { λ test message. is_some (room_for test.bank.now message) };

    fn passes(&self, message: &Message) -> bool {
        victim_for_request(self.bank, message).is_some()
    }
}

impl BankSeat {
    /// Serves a message: the one in the hand, or else the oldest held one that isn't passed, by the order of
    /// docs/SEATS.md. It is delivered to the bank, or to the DRAM behind it. What these send to a core goes to the
    /// outbox, and what they send each other to the end of the held list.
    ///
    /// Stopped exactly if the seat is stopped. NetworkFull if no message is served and one finds no place, there or in
    /// the outbox, or the seat sent 2^64 - 1 messages. Exhausted if a sum of times doesn't fit 64 bits: the seat is
    /// then stopped. NoMemory only if the message that would be served is a store to DRAM. A refusal changes nothing
    /// else.
    #[inline(always)]
    pub fn serve(&mut self, machine: &Machine) -> Result<Served, Refusal>
        requires { IsBankSeat machine.now self.old }
        ensures seat { IsBankSeat machine.now self.new × SameBankPlace self.old self.new }
        ensures served { SeatServes sending_bank_table sending_bank_takes_memory
            self.old.is_stopped self.old.mail.inbox self.old.part result self.new.mail.inbox
            self.new.part }
        ensures hold { hold self.new.mail ≡
            stored_bank (hold self.old.mail) self.new.part self.new.mail.inbox }
        ensures stopped { self.new.is_stopped ≡ (self.old.is_stopped || is_exhausted result) }
        ensures memory { result ≡ Err Refusal.NoMemory →
            ServesStore self.old.mail.inbox self.old.part }
    {
        if self.is_stopped {
            return Err(Refusal::Stopped);
        }
        match self.mail.serve_bank(machine, &mut self.part) {
            Err(refusal) => {
                self.is_stopped = matches!(refusal, inbox::Refusal::Exhausted);
                Err(seat_refusal(refusal))
            }
            Ok(served) => Ok(served),
        }
    }

    /// Evicts a line from the bank. A clean line that no core owns is gone then, and the bank sends a dirty one to
    /// DRAM; it asks the owner of a line to return it, and the line stays.
    ///
    /// Stopped exactly if the seat is stopped; else NoSuch exactly if the bank doesn't have the line; else Busy
    /// exactly if it is being loaded, recalled or stored; else NetworkFull exactly if a message would be sent for
    /// which there is no place, in the held list for one to DRAM and in the outbox for one to a core, or the seat sent
    /// 2^64 - 1 messages. A refusal changes nothing.
    pub fn evict(&mut self, machine: &Machine, line: LineNo) -> Result<Eviction, Refusal>
        requires { IsBankSeat machine.now self.old }
        ensures seat { IsBankSeat machine.now self.new × SameBankPlace self.old self.new }
        ensures answer { result ≡ bank_evict_answer self.old.is_stopped self.old.part.outbox
            self.old.mail.inbox.held (evict self.old.part.bank line).0 }
        ensures done { OnOk result (Evicts (evict self.old.part.bank line) self.old.mail.inbox
            self.old.part self.new.mail.inbox self.new.part) }
        ensures refused { OnErr result ((self.new.mail.inbox ≡ self.old.mail.inbox) ×
            (self.new.part ≡ self.old.part)) }
        ensures hold { hold self.new.mail ≡
            stored_bank (hold self.old.mail) self.new.part self.new.mail.inbox }
        ensures stopped { self.new.is_stopped ≡ self.old.is_stopped }
        ensures memory { result ≢ Err Refusal.NoMemory }
    {
        if self.is_stopped {
            return Err(Refusal::Stopped);
        }
        self.mail.evict_bank(machine, &mut self.part, line)
    }

    /// The line to evict to make room for a held request, the oldest that waits for room in a set in which nothing is
    /// under way: the least recently used line of the set that no core owns, or else the least recently used one.
    /// `None` if there is no such request. The bank doesn't refuse the line's eviction.
    pub fn make_room(&self) -> Option<LineNo>
        ensures line { result ≡ first_room self.now.part.bank self.now.mail.inbox.held }
        ensures evicted { IfSome result (λ victim. IsOk (evict self.now.part.bank victim).0) }
    {
        let message = self.mail.inbox.first_held(&RoomTest {
            bank: &self.part.bank,
        })?;
        victim_for_request(&self.part.bank, message)
    }
}
