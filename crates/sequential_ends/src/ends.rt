//! Every end of a test.

ghost use Rattle.std.specs.Prelude.{◌≡◌, ◌≤◌, ℕ, List, length, slice_get, option_map, Err, IfOk};
ghost use Rattle.std.specs.List.{Contains, IsDistinct};
ghost use Rattle.std.specs.List.Sorted.{IsSorted};
ghost use Rattle.std.specs.Ordering.{nat_cmp};
ghost use Rattle.std.specs.Cmp.Lexicographic.{slice_cmp};
ghost use Rattle.std.specs.Str.{bytes_eq};
ghost use Rattle.litmus_reader.specs.TestViews.{test_of};
ghost use Rattle.sequential_machine.specs.SequentialMachine.{IsOutcome};
ghost use Rattle.sequential_ends.specs.Every.{values_in, CountsStates, IsTooMany};
ghost use Rattle.sequential_ends.specs.Layers.{kept_at};
ghost use Rattle.sequential_ends.specs.Orders.{AreEndOrders};

use crate::error::{EndsError, LayerError};
use crate::layers::next_layer;
use crate::points::opening_row;
use crate::rows::Rows;
use litmus_reader::Test;
use sequential_machine::laws::ends_of_turns_are_outcomes;
use std::alloc::Global;
use std::marker::Model;

/// How many states may be kept at once, for a caller who has no other bound.
pub const MOST_STATES: usize = 4_194_304;

/// Every end of a test: the values of the names in its condition, in the order of `Test::seen`, and an order of the
/// threads' memory operations.
#[derive(Drop)]
pub struct Ends {
    rows: Rows,
    states: u64,
}

impl Model for Ends {
    ghost use Rattle.sequential_ends.specs.Every.{Every};

    ghost Value = { Every };

    ghost view = { λ e. record { ends = e.rows; states = e.states } };
}

impl Ends {
    /// How many ends there are.
    pub fn len(&self) -> usize
        ensures { result ≡ length self.now.ends }
    {
        self.rows.len()
    }

    /// The values of the end of this number, if there is one, and its order: for each operation the number of its
    /// thread, or nothing at all if no orders are asked for. Ends are numbered from 0.
    pub fn get(&self, number: usize) -> Option<(&[u64], &[u8])>
        ensures { option_map (λ end. (end.0.now, end.1.now)) result ≡ slice_get self.now.ends number }
    {
        self.rows.get(number)
    }

    /// How many states were met, each counted once; 2^64 - 1 stands for more.
    pub fn states(&self) -> u64
        ensures { result ≡ self.now.states }
    {
        self.states
    }
}

/// Every end of a test on the sequential machine, each with an order that leads there if `has_orders`. A state is what
/// each thread has received and the memory. The states with the same number of operations done are a layer. A layer and
/// the next are kept at once, at most `most_states`.
pub fn list_ends(
    alloc: Global,
    test: &Test,
    most_states: usize,
    has_orders: bool,
) -> Result<Ends, EndsError>
    // An end is listed exactly if it is an outcome of the test.
    ensures outcomes { IfOk result (λ every. (values : List ℕ) →
        Contains (values_in every) values → IsOutcome (test_of test.now) values) }
    ensures all { IfOk result (λ every. (values : List ℕ) →
        IsOutcome (test_of test.now) values → Contains (values_in every) values) }
    // The ends rise, each once.
    ensures rising { IfOk result (λ every. IsSorted (slice_cmp nat_cmp) (values_in every)) }
    ensures once { IfOk result (λ every. IsDistinct bytes_eq (values_in every)) }
    // Its order leads to each, if orders are asked for; else nothing is kept.
    ensures orders { IfOk result (λ every. AreEndOrders has_orders (test_of test.now) every.ends) }
    ensures states { IfOk result (λ every. CountsStates (test_of test.now) every.states) }
    // It is TooMany exactly if more states would be kept at once, with a number that is enough where it stopped.
    ensures many { (enough : ℕ) → result ≡ Err (EndsError.TooMany enough) →
        IsTooMany (test_of test.now) most_states enough }
    ensures few { IfOk result (λ every. (k : ℕ) → kept_at (test_of test.now) k ≤ most_states) }
{
    ends_of_turns_are_outcomes();
    if most_states == 0 {
        return Err(EndsError::TooMany(1 + test.threads()));
    }
    let mut layer = Rows::new(alloc);
    layer.add(opening_row(alloc, test)?, Vec::new(alloc))?;
    let mut rows = Rows::new(alloc);
    let mut states: u64 = 0;
    // How many turns lead to the layer. Only the proof asks.
    let mut turns: u128 = 0;
    while layer.len() > 0 {
        states = states.saturating_add(layer.len() as u64);
        let room = most_states - layer.len();
        layer = match next_layer(alloc, test, has_orders, &layer, &mut rows, room) {
            Ok(next) => next,
            Err(LayerError::NoMemory) => return Err(EndsError::NoMemory),
            Err(LayerError::TooMany) => {
                let enough = layer.len().saturating_mul(1 + test.threads());
                return Err(EndsError::TooMany(enough));
            }
        };
        turns += 1;
    }
    rows.sort()?;
    Ok(Ends { rows, states })
}
