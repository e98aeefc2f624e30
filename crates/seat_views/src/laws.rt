//! What views show of seats, as seats are made, change and are joined.
ghost use Rattle.std.specs.Prelude.{◌≡◌, ℕ, ◌+◌, ◌<◌, ◌≤◌, false, List, [], ◌∷◌, ◌++◌, set};
ghost use mathlib.Core.Option.{some};
ghost use lib.ListN.{get_elem?};
ghost use Rattle.seat_views.specs.declared.views.View.{View};
ghost use Rattle.seat_views.specs.Seated.{over, with_value_at, Shown, seat_view, first_view};
ghost use Rattle.seat_views.specs.Seated.{with_hold, one_more, spent_view, knows};

/// If one value changes, a sum of weights changes by the weight of that value alone; sums whose terms are equal one by
/// one are equal; and no term is above its sum.
pub fn sums_change_by_one_term<A>()
    ensures changed { (n : ℕ) (weight : ℕ → A → ℕ) (f : ℕ → A) (i : ℕ) (x : A) → i < n →
        over n (λ j. weight j (with_value_at f i x j)) + weight i (f i) ≡
        over n (λ j. weight j (f j)) + weight i x }
    ensures alike { (n : ℕ) (f g : ℕ → ℕ) → ((j : ℕ) → j < n → f j ≡ g j) →
        over n f ≡ over n g }
    ensures below { (n : ℕ) (weight : A → ℕ) (f : ℕ → A) (i : ℕ) → i < n →
        weight (f i) ≤ over n (λ j. weight (f j)) }
{}

/// The first seat alone, which has made no other: every seat is as it opens.
pub fn one_seat_is_shown<H>()
    ensures { (blank : ℕ → H) (n : ℕ) → 0 < n →
        Shown blank n (first_view (blank 0) ∷ []) blank }
{}

/// A seat that isn't spent may hold something else: the others stay as they were.
pub fn changed_seats_are_shown<H>()
    ensures { (blank : ℕ → H) (n : ℕ) (views : List (View H)) (seats : ℕ → H) (id : ℕ)
        (v : View H) (h : H) → Shown blank n views seats → get_elem? views id ≡ some v →
        v.spent ≡ false → Shown blank n (set views id (with_hold v h)) (with_value_at seats id h) }
{}

/// The first seat makes one more, of the next number, which holds what a seat of this number opens with: what seats
/// hold stays as it was.
pub fn made_seats_are_shown<H>()
    ensures { (blank : ℕ → H) (n : ℕ) (views : List (View H)) (seats : ℕ → H) (id : ℕ)
        (v : View H) → Shown blank n views seats → get_elem? views id ≡ some v →
        v.spent ≡ false → 0 < v.made → v.made < n →
        Shown blank n
        (set views id (one_more v) ++ seat_view v.made (blank v.made) ∷ []) seats }
{}

/// A seat is joined to another: this one then knows what that one held, which is spent, and what seats hold stays as
/// it was.
pub fn joined_seats_are_shown<H>()
    ensures { (blank : ℕ → H) (gone : H) (n : ℕ) (views : List (View H)) (seats : ℕ → H)
        (id : ℕ) (v : View H) (other : ℕ) (u : View H) → Shown blank n views seats →
        get_elem? views id ≡ some v → v.spent ≡ false → ¬ (other ≡ id) →
        get_elem? (set views id (knows v u)) other ≡ some u → u.spent ≡ false →
        Shown blank n (set (set views id (knows v u)) other (spent_view gone)) seats }
{}
