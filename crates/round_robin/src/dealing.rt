//! Deals a list to hands.
ghost use Rattle.std.specs.Prelude.{◌≡◌, ℕ, ◌+◌, ◌/◌, ◌<◌, ◌≤◌, ◌^◌, [], length, map, IfOk, All};
ghost use Rattle.std.specs.Vec.{vec_capacity};
ghost use Rattle.round_robin.specs.Dealing.{HaveRoom, IsDealtInTurn, total_length};

use std::alloc::{AllocError, Global};

// A hand has room for so many items more than its share. Nothing fills it: so what two hands have lies on different
// lines of a cache, if an item has 16 bytes or more.
const ROOM_BETWEEN: usize = 8;

/// `hands` empty hands, each with room for its share of `items` items and for eight more. AllocError if memory for them
/// can't be allocated.
pub fn new_empty_hands<T: Drop>(
    alloc: Global,
    hands: usize,
    items: usize,
) -> Result<Vec<Vec<T>>, AllocError>
    requires { 0 < hands }
    ensures long { IfOk result (λ r. length r.items ≡ hands) }
    ensures room { IfOk result (λ r. HaveRoom items r.items) }
    ensures capacity { IfOk result (λ r. hands ≤ vec_capacity r) }
    ensures exact { IfOk result (λ r. All (λ v. vec_capacity v ≡ items / hands + 9) r.items) }
{
    let Some(room) = (items / hands).checked_add(1 + ROOM_BETWEEN) else {
        return Err(AllocError);
    };
    new_hands_with_room(alloc, hands, room)
}

// So many empty hands, with room for so many items each.
fn new_hands_with_room<T: Drop>(
    alloc: Global,
    hands: usize,
    room: usize,
) -> Result<Vec<Vec<T>>, AllocError>
    ensures long { IfOk result (λ r. length r.items ≡ hands) }
    ensures empty { IfOk result (λ r. All (λ v. (v.items ≡ []) × (room ≤ vec_capacity v)) r.items) }
    ensures capacity { IfOk result (λ r. hands ≤ vec_capacity r) }
    ensures exact { IfOk result (λ r. All (λ v. vec_capacity v ≡ room) r.items) }
{
    let mut dealt = Vec::with_capacity(alloc, hands)?;
    for _ in 0..hands {
        dealt.push_reserved(Vec::with_capacity(alloc, room)?);
    }
    Ok(dealt)
}

/// Deals all items: item i goes to hand `first + i` modulo the number of hands, and a hand has its items in the order
/// of the list. The list is then empty, with its capacity as before. The call can't fail, since the hands have room.
pub fn deal<T: Drop>(items: &mut Vec<T>, first: usize, hands: &mut Vec<Vec<T>>)
    requires some { 0 < length hands.old.items }
    requires room { HaveRoom (length items.old.items) hands.old.items }
    requires few { first + length hands.old.items < 2 ^ 64 }
    ensures dealt { IsDealtInTurn items.old.items first (length hands.old.items)
        (map (λ v. v.items) hands.new.items) }
    ensures total { total_length (map (λ v. v.items) hands.new.items) ≡ length items.old.items }
    ensures long { length hands.new.items ≡ length hands.old.items }
    ensures empty { items.new.items ≡ [] }
    ensures capacity { vec_capacity items.new ≡ vec_capacity items.old }
    ensures hands_capacity { vec_capacity hands.new ≡ vec_capacity hands.old }
{
    let count = hands.len();
    items.reverse();
    let mut at = 0;
    while let Some(item) = items.pop() {
        hands[(first + at % count) % count].push_reserved(item);
        at += 1;
    }
}
