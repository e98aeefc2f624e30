//! What layers are, and orders. A function does nothing: its contract is the law.
ghost use Rattle.std.specs.Prelude.{ℕ, List, length};
ghost use Rattle.std.specs.List.{Contains, IsDistinct};
ghost use Rattle.litmus_reader.specs.Litmus.{Litmus};
ghost use Rattle.sequential_machine.specs.Turns.{Point, Reached};
ghost use Rattle.sequential_ends.specs.Layers.{layer, same_row};
ghost use Rattle.sequential_ends.specs.Orders.{LedBy};

/// Layer k has the points that k turns reach, all of them and each once. So a count of them is one of points.
pub fn layers_are_reached()
    ensures reached { (test : Litmus) (k : ℕ) (p : Point) → Contains (layer test k) p → Reached test k p }
    ensures all { (test : Litmus) (k : ℕ) (p : Point) → Reached test k p → Contains (layer test k) p }
    ensures once { (test : Litmus) (k : ℕ) → IsDistinct same_row (layer test k) }
{}

/// What an order leads to is reached by as many turns as it has.
pub fn orders_are_turns()
    ensures { (test : Litmus) (order : List ℕ) (p : Point) → LedBy test order p →
        Reached test (length order) p }
{}
