//! A core's seat with what it stores.
ghost use Rattle.std.specs.Prelude.{◌≡◌, ◌+◌, ◌<◌, ◌≤◌, true, false, [], IfOk, length, vec_capacity};
ghost use Rattle.protocol.specs.Issued.{listed};
ghost use Rattle.machine_table.specs.SetUp.{is_good};
ghost use Rattle.seat_rule.specs.Rule.{opening_hold};
ghost use Rattle.mailboxes.specs.Places.{AllLinked};
ghost use Rattle.closed_machine.specs.Sending.{no_outbox};
ghost use Rattle.mailboxes.specs.Ties.{CoreTied};

use crate::ends::incoming_slots;
use crate::machine::Machine;
use crate::mailbox::Mailbox;
use crate::sending::SendingCore;
use crate::steps::SlotSeat;
use closed_machine::Outbox;
use core_pts::{Core, CoreConfig};
use inbox::Inbox;
use physiological_order::{Op, Record};
use private_cache::Geometry;
use std::alloc::{AllocError, Global};

/// A core's seat: the messages that came in, the core with what its seat sends by, the operations that it was issued,
/// and its records. Each message of the outbox goes to a seat to which there is a link.
#[derive(Drop)]
pub struct CoreSeat {
    pub(crate) mail: Mailbox,
    pub(crate) part: SendingCore,
    pub(crate) issued: Vec<Op>,
    pub(crate) records: Vec<Record>,
    // Whether a sum of times didn't fit: the seat's calls that can refuse then answer Stopped.
    pub(crate) is_stopped: bool,
    pub ghost tied: { CoreTied mail.seat.me.0.mine part.core issued.items records.items part.outbox },
    pub ghost linked: { AllLinked mail.cores mail.banks mail.number part.outbox.messages },
    pub ghost room: { length records.items + length (listed part.core.open_op) ≤ vec_capacity records },
}

impl CoreSeat {
    /// A core's seat as it opens. All memory is allocated here, but not that of operations and records.
    pub(crate) fn new(
        alloc: Global,
        machine: &Machine,
        seat: SlotSeat,
        number: u32,
    ) -> Result<CoreSeat, AllocError>
        requires number { number < machine.now.set_up.config.cores }
        requires view { (seat.me.0.number ≡ number) × (seat.me.0.spent ≡ false) ×
            (seat.me.0.mine ≡ opening_hold machine.now.set_up number) × (seat.me.1 ≡ []) }
        ensures { IfOk result (λ p. (p.mail.seat ≡ seat) × (p.mail.number ≡ number) ×
            (p.mail.cores ≡ machine.now.set_up.config.cores) ×
            (p.mail.banks ≡ machine.now.set_up.config.banks) × (p.mail.cursor ≡ 0) ×
            (p.is_stopped ≡ false) × (p.part.outbox ≡ no_outbox)) }
    {
        let config = machine.set_up.config;
        let core = CoreConfig {
            number,
            banks: config.banks,
            line_words: config.line_words,
            lease: config.lease,
            private_write: config.private_write,
            opening_time: config.opening_time,
        };
        let geometry = Geometry {
            sets: config.sets,
            ways: config.ways,
        };
        let core = Core::new(alloc, core, geometry)?;
        let outbox = Outbox::new(alloc)?;
        let inbox = Inbox::new(alloc)?;
        let mail = Mailbox {
            seat,
            number,
            cores: config.cores,
            banks: config.banks,
            slots: incoming_slots(&config, number),
            inbox,
            cursor: 0,
        };
        Ok(CoreSeat {
            mail,
            part: SendingCore { core, outbox },
            issued: Vec::new(alloc),
            records: Vec::new(alloc),
            is_stopped: false,
        })
    }
}
