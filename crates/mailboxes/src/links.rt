//! Looks at the slots of one link.
ghost use Rattle.std.specs.Prelude.{◌≡◌, ℕ, ◌+◌, ◌*◌, ◌/◌, ◌<◌, ◌≤◌, false, [], ◌∷◌, ◌++◌, None, MatchOption};
ghost use Rattle.seat_views.specs.Seated.{with_hold};
ghost use Rattle.seat_rule.specs.declared.views.Stage.TheVariants.{Idle, Writing};
ghost use Rattle.seat_rule.specs.Rule.{slot_count, source};
ghost use Rattle.seat_rule.specs.Plays.{looking, ones};
ghost use Rattle.mailboxes.specs.Places.{Belongs};

use crate::steps::{SlotSeat, SlotTable, look_at_outgoing_slot};

/// The first slot of the link that is found empty, which is then out with the seat; all four are looked at if none is.
pub fn find_free_slot(table: &SlotTable, seat: &mut SlotSeat, link: usize) -> Option<usize>
    requires table { Belongs seat.old.table_id table.now.table_id table.now.key }
    requires link { (4 * link + 4 ≤ slot_count table.now.key) ×
        (slot_count table.now.key ≤ 4096) × (source table.now.key link ≡ seat.old.me.0.number) }
    requires idle { (seat.old.me.0.spent ≡ false) × (seat.old.me.0.mine.stage ≡ Idle) ×
        (seat.old.me.1 ≡ []) }
    ensures table { (seat.new.table_id ≡ seat.old.table_id) × (seat.new.id ≡ seat.old.id) }
    ensures found { MatchOption result
        (seat.new.me ≡
        (with_hold seat.old.me.0 (looking seat.old.me.0.mine (ones link 4) Idle), []))
        (λ k. (s : ℕ) × (s < 4) × (k ≡ 4 * link + s) × (seat.new.me ≡ (
          with_hold seat.old.me.0
              (looking seat.old.me.0.mine (ones link s ++ (k, 0) ∷ []) (Writing k)),
          (k, None) ∷ [],
        ))) }
{
    for s in 0..4 {
        let slot = 4 * link + s;
        if look_at_outgoing_slot(table, seat, slot) == 0 {
            return Some(slot);
        }
    }
    None
}
