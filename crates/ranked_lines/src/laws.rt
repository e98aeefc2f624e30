//! Laws of rising lists, for callers. The functions do nothing: their contracts are the laws.
ghost use Rattle.std.specs.Prelude.{◌≡◌, IsPermutation, IsSorted, List, ℕ};
ghost use Rattle.std.specs.Ordering.{nat_cmp};
ghost use Rattle.ranked_lines.specs.Rising.{sorted, Rises};

/// A sorted list of the same numbers is the list in rising order.
pub fn sorted_is_unique()
    ensures { (xs ys : List ℕ) → IsPermutation xs ys → IsSorted nat_cmp ys → ys ≡ sorted xs }
{}

/// `sorted` of a list has the list's numbers, each as often, and none of them stands behind a greater one.
pub fn sorted_rises()
    ensures same { (xs : List ℕ) → IsPermutation xs (sorted xs) }
    ensures rises { (xs : List ℕ) → Rises (sorted xs) }
{}
