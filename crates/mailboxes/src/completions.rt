//! A core's seat completes its open operation in one exchange: 1 is added to the word that counts completions, and what
//! that word was is the record's number.
ghost use Rattle.std.specs.Prelude.{◌≡◌, ◌^◌, ◌<◌, true, false, Some};
ghost use Rattle.core_pts.specs.declared.attempt.Attempt.TheVariants.{Completed};
ghost use Rattle.core_pts.specs.CoreTable as core_table;
ghost use Rattle.machine_table.specs.SetUp.{is_good};
ghost use Rattle.physiological_order.specs.declared.operation.Op.{Op};
ghost use Rattle.seat_rule.specs.Rule.{no_hold, no_set_up, seat_count, slot_count};
ghost use Rattle.seat_rule.specs.Plays.{finished};
ghost use Rattle.mailboxes.specs.Places.{Belongs};

use crate::steps::{SlotSeat, SlotTable};
use atomic_table::Play;
use core_pts::Core;
use network::Message;
use physiological_order::Op;
use seat_rule::Hold;
use seat_rule::laws::completions_keep_the_rule;
use seat_views::View;
use std::marker::{Brand, PhantomData};

/// How the machine was set up, the operation that is completed, what it receives and when, and the core afterwards.
/// Each call picks them.
pub trait End {
    ghost use Rattle.std.specs.Prelude.{ℕ, Option};
    ghost use Rattle.physiological_order.specs.declared.operation.Op.{Op};
    ghost use Rattle.core_pts.specs.CoreTable.{CoreState};
    ghost use Rattle.seat_rule.specs.declared.views.SetUp.{SetUp};

    ghost set_up: { SetUp };

    ghost op: { Op };

    ghost received: { Option ℕ };

    ghost ts: { ℕ };

    ghost core: { CoreState };
}

impl End for Brand {
    ghost use Rattle.std.specs.Prelude.{None};

    ghost set_up = { no_set_up };

    ghost op = { Op.Load 0 };

    ghost received = { None };

    ghost ts = { 0 };

    ghost core = { no_hold.core };
}

struct Finishes<C> {
    marker: PhantomData<C>,
}

impl<C: End> Play<Option<Message>, View<Hold>> for Finishes<C> {
    ghost then = { λ s m r n.
        finished C.set_up (seat_count C.set_up) C.core C.op C.received C.ts m r n };
}

/// The open operation of the seat's core is completed, by the core's table, which leaves this core; answers the number
/// of the record. `word` is the number of the word that counts completions.
pub(crate) fn complete_operation(
    table: &SlotTable,
    seat: &mut SlotSeat,
    word: usize,
    op: &Op,
    received: Option<u64>,
    ts: u64,
    core: &Core,
) -> u64
    requires table { Belongs seat.old.table_id table.now.table_id table.now.key }
    requires word { (word ≡ slot_count table.now.key) × (is_good table.now.key.config ≡ true) }
    requires live { (seat.old.me.0.spent ≡ false) ×
        (seat.old.me.0.number < table.now.key.config.cores) }
    requires attempt { (seat.old.me.0.mine.core.open_op ≡ Some op.now) ×
        (core_table.attempt seat.old.me.0.mine.core ≡ (Some (Completed received ts), core.now)) ×
        (seat.old.me.0.mine.core.issued < 2 ^ 32) }
    ensures table { (seat.new.table_id ≡ seat.old.table_id) × (seat.new.id ≡ seat.old.id) }
    ensures finished { finished table.now.key (seat_count table.now.key) core.now op.now received ts
        seat.old.me result seat.new.me }
{
    complete_operation_as::<Brand>(table, seat, word, op, received, ts, core)
}

fn complete_operation_as<C: End>(
    table: &SlotTable,
    seat: &mut SlotSeat,
    word: usize,
    op: &Op,
    received: Option<u64>,
    ts: u64,
    core: &Core,
) -> u64
    requires table { Belongs seat.old.table_id table.now.table_id table.now.key }
    requires word { (word ≡ slot_count table.now.key) × (is_good table.now.key.config ≡ true) }
    requires live { (seat.old.me.0.spent ≡ false) ×
        (seat.old.me.0.number < table.now.key.config.cores) }
    requires choice { (C.set_up ≡ table.now.key) × (C.op ≡ op.now) × (C.received ≡ received) ×
        (C.ts ≡ ts) × (C.core ≡ core.now) }
    requires attempt { (seat.old.me.0.mine.core.open_op ≡ Some C.op) ×
        (core_table.attempt seat.old.me.0.mine.core ≡ (Some (Completed C.received C.ts), C.core)) ×
        (seat.old.me.0.mine.core.issued < 2 ^ 32) }
    ensures table { (seat.new.table_id ≡ seat.old.table_id) × (seat.new.id ≡ seat.old.id) }
    ensures finished { finished C.set_up (seat_count C.set_up) C.core C.op C.received C.ts
        seat.old.me result seat.new.me }
{
    completions_keep_the_rule();
    table.fetch_add::<Finishes<C>>(seat, word, 1)
}
