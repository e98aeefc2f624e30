//! Laws of dealt lists, for callers. The functions do nothing: their contracts are the laws. A lemma states the law of
//! a relation in place of a clause: the proofs of this crate give it to those of other crates.
ghost use Rattle.std.specs.Prelude.{◌≡◌, ℕ, ◌<◌, List, [], length, slice_index_or};
ghost use Rattle.round_robin.specs.Dealing.{IsDealtInTurn, HasLengths, hand_of};

/// Two lists that were dealt to the same hands are equal, so what is gathered from the hands of a list is this list.
pub fn one_list_gives_the_hands<A>()
    ensures { (all others : List A) (first n : ℕ) (lists : List (List A)) →
        IsDealtInTurn all first n lists → IsDealtInTurn others first n lists → all ≡ others }
{}

/// The hands of a dealt list have the lengths of its items, and so do others of which each is as long as its hand.
pub fn dealt_hands_have_lengths<A, B>()
    ensures dealt { (all : List A) (first n : ℕ) (lists : List (List A)) →
        IsDealtInTurn all first n lists → HasLengths (length all) first n lists }
    ensures changed { (items first n : ℕ) (before : List (List A)) (after : List (List B)) →
        HasLengths items first n before → length after ≡ n →
        ((h : ℕ) → h < n →
        length (slice_index_or after (hand_of first n h) [])
        ≡ length (slice_index_or before (hand_of first n h) [])) →
        HasLengths items first n after }
{}
