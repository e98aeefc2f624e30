//! A bank's seat with what it stores.
ghost use Rattle.std.specs.Prelude.{◌≡◌, ◌+◌, ◌-◌, ◌<◌, ◌≤◌, true, false, [], IfOk};
ghost use Rattle.std.specs.Coded.{codes};
ghost use Rattle.std.specs.FinMap.{entries};
ghost use Rattle.std.proofs.Props.{props};
ghost use Rattle.dram_mts.specs.contracts.dram.Dram as stored_dram;
ghost use Rattle.machine_table.specs.SetUp.{is_good};
ghost use Rattle.machine_table.specs.Opening.{dram_of};
ghost use Rattle.seat_rule.specs.Rule.{opening_hold};
ghost use Rattle.mailboxes.specs.Places.{AllLinked};
ghost use Rattle.closed_machine.specs.Sending.{no_outbox};
ghost use Rattle.mailboxes.specs.Ties.{BankTied};

use crate::ends::incoming_slots;
use crate::machine::Machine;
use crate::mailbox::Mailbox;
use crate::sending::SendingBank;
use crate::steps::SlotSeat;
use closed_machine::Outbox;
use dram_mts::Dram;
use inbox::Inbox;
use llc_bank::{Bank, BankConfig};
use std::alloc::{AllocError, Global};

/// A bank's seat: the messages that came in, and the bank and the DRAM behind it with what their seat sends by. Each
/// message of the outbox goes to a seat to which there is a link.
#[derive(Drop)]
pub struct BankSeat {
    pub(crate) mail: Mailbox,
    pub(crate) part: SendingBank,
    // Whether a sum of times didn't fit: the seat's calls that can refuse then answer Stopped.
    pub(crate) is_stopped: bool,
    pub ghost tied: { BankTied mail.seat.me.0.mine part.bank part.dram part.outbox } by { Prim.hlevel (
      props,
      codes,
      stored_dram.the_row.coded,
    ) },
    pub ghost linked: { AllLinked mail.cores mail.banks mail.number part.outbox.messages },
}

impl BankSeat {
    /// A bank's seat as it opens. All memory is allocated here, but not that of the DRAM's lines.
    pub(crate) fn new(
        alloc: Global,
        machine: &Machine,
        seat: SlotSeat,
        number: u32,
        dram: Dram,
    ) -> Result<BankSeat, AllocError>
        requires number { (machine.now.set_up.config.cores ≤ number) ×
            (number < machine.now.set_up.config.cores + machine.now.set_up.config.banks) }
        requires dram { dram ≡ dram_of machine.now.set_up.config
            (number - machine.now.set_up.config.cores) (entries machine.now.set_up.memory) }
        requires view { (seat.me.0.number ≡ number) × (seat.me.0.spent ≡ false) ×
            (seat.me.0.mine ≡ opening_hold machine.now.set_up number) × (seat.me.1 ≡ []) }
        ensures { IfOk result (λ p. (p.mail.seat ≡ seat) × (p.mail.number ≡ number) ×
            (p.mail.cores ≡ machine.now.set_up.config.cores) ×
            (p.mail.banks ≡ machine.now.set_up.config.banks) × (p.mail.cursor ≡ 0) ×
            (p.is_stopped ≡ false) × (p.part.outbox ≡ no_outbox)) }
    {
        let config = machine.set_up.config;
        let bank = BankConfig {
            number: number - config.cores,
            banks: config.banks,
            sets: config.bank_sets,
            ways: config.bank_ways,
            lease: config.lease,
            opening_time: config.opening_time,
        };
        let bank = Bank::new(alloc, bank)?;
        let outbox = Outbox::new(alloc)?;
        let inbox = Inbox::new(alloc)?;
        let mail = Mailbox {
            seat,
            number,
            cores: config.cores,
            banks: config.banks,
            slots: incoming_slots(&config, number),
            inbox,
            cursor: 0,
        };
        Ok(BankSeat {
            mail,
            part: SendingBank { bank, dram, outbox },
            is_stopped: false,
        })
    }
}
