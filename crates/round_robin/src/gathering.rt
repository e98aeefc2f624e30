//! Gathers the items of hands into one list.
ghost use Rattle.std.specs.Prelude.{◌≡◌, ℕ, ◌+◌, ◌<◌, ◌≤◌, ◌^◌, List, [], length, map};
ghost use Rattle.std.specs.Vec.{vec_capacity};
ghost use Rattle.round_robin.specs.Dealing.{IsDealtInTurn, HasLengths};

/// Gathers `count` items from hands that have the lengths of as many that were dealt from the hand `first` on. The
/// list is then the one of which dealing gives these hands. It has room for all items, so the call can't fail.
pub fn gather<T: Drop>(mut dealt: Vec<Vec<T>>, first: usize, items: &mut Vec<T>, count: usize)
    requires empty { items.old.items ≡ [] }
    requires room { count ≤ vec_capacity items.old }
    requires lengths { HasLengths count first (length dealt.items) (map (λ v. v.items) dealt.items) }
    requires few { first + length dealt.items < 2 ^ 64 }
    ensures dealt { IsDealtInTurn items.new.items first (length dealt.items)
        (map (λ v. v.items) dealt.items) }
    ensures long { length items.new.items ≡ count }
    ensures capacity { vec_capacity items.new ≡ vec_capacity items.old }
{
    let hands = dealt.len();
    for i in 0..count {
        let at = count - 1 - i;
        if let Some(item) = dealt[(first + at % hands) % hands].pop() {
            items.push_reserved(item);
        }
    }
    items.reverse();
}
