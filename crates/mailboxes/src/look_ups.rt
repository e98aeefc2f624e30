//! What a seat stores, for whoever has it. Only the seat's own calls change it.
ghost use Rattle.std.specs.Prelude.{◌≡◌, length};

use crate::bank_seat::BankSeat;
use crate::core_seat::CoreSeat;
use closed_machine::Outbox;
use core_pts::Core;
use dram_mts::Dram;
use inbox::Inbox;
use llc_bank::Bank;
use network::Message;
use physiological_order::Op;

impl CoreSeat {
    /// The seat's number, which is that of its core.
    pub fn number(&self) -> u32
        ensures { result ≡ self.now.mail.number }
    {
        self.mail.number
    }

    /// Whether a sum of times didn't fit 64 bits. A stopped seat stays stopped.
    pub fn is_stopped(&self) -> bool
        ensures { result ≡ self.now.is_stopped }
    {
        self.is_stopped
    }

    /// The core.
    pub fn core(&self) -> &Core
        ensures { result.now ≡ self.now.part.core }
    {
        &self.part.core
    }

    /// The operations that the core was issued, in order.
    pub fn issued(&self) -> &[Op]
        ensures { result.now ≡ self.now.issued.items }
    {
        &self.issued
    }

    /// How many of them completed.
    pub fn completed(&self) -> usize
        ensures { result ≡ length self.now.records.items }
    {
        self.records.len()
    }

    /// The message in the hand, and the held ones.
    pub fn inbox(&self) -> &Inbox<Message>
        ensures { result.now ≡ self.now.mail.inbox }
    {
        &self.mail.inbox
    }

    /// The messages that are to be put, and how many were sent.
    pub fn outbox(&self) -> &Outbox
        ensures { result.now ≡ self.now.part.outbox }
    {
        &self.part.outbox
    }

    /// The place among the slots that come in, from 0, at which the next take begins to look.
    pub fn cursor(&self) -> usize
        ensures { result ≡ self.now.mail.cursor }
    {
        self.mail.cursor
    }
}

impl BankSeat {
    /// The seat's number: that of the bank behind those of all cores.
    pub fn number(&self) -> u32
        ensures { result ≡ self.now.mail.number }
    {
        self.mail.number
    }

    /// Whether a sum of times didn't fit 64 bits. A stopped seat stays stopped.
    pub fn is_stopped(&self) -> bool
        ensures { result ≡ self.now.is_stopped }
    {
        self.is_stopped
    }

    /// The bank.
    pub fn bank(&self) -> &Bank
        ensures { result.now ≡ self.now.part.bank }
    {
        &self.part.bank
    }

    /// The DRAM behind it.
    pub fn dram(&self) -> &Dram
        ensures { result.now ≡ self.now.part.dram }
    {
        &self.part.dram
    }

    /// The message in the hand, and the held ones.
    pub fn inbox(&self) -> &Inbox<Message>
        ensures { result.now ≡ self.now.mail.inbox }
    {
        &self.mail.inbox
    }

    /// The messages that are to be put, and how many were sent.
    pub fn outbox(&self) -> &Outbox
        ensures { result.now ≡ self.now.part.outbox }
    {
        &self.part.outbox
    }

    /// The place among the slots that come in, from 0, at which the next take begins to look.
    pub fn cursor(&self) -> usize
        ensures { result ≡ self.now.mail.cursor }
    {
        self.mail.cursor
    }
}
