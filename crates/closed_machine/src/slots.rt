//! What lay in the slots of a machine's links.
ghost use Rattle.std.specs.Prelude.{◌≡◌, ◌≤◌, [], vec_capacity};
ghost use Rattle.std.specs.Mem.Slots.{IsFull, slots_items, slots_len};

use atomic_table::Closed;
use network::{Body, Message};
use std::alloc::Global;

/// Takes out what the slots of a closed table have, in their order, and frees their memory.
pub fn take_slot_messages(
    mut closed: Closed<Option<Message>, Global>,
    slots: &mut Vec<Option<Message>>,
)
    requires full { IsFull closed.slots }
    requires room { (slots.old.items ≡ []) × (slots_len closed.slots ≤ vec_capacity slots.old) }
    ensures { slots.new.items ≡ slots_items closed.slots }
{
    let _body: Option<Body> = None;
    for i in 0..closed.slot_count() {
        slots.push_reserved(closed.take(i));
    }
    closed.free();
}
