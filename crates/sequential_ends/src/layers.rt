//! From a layer of points to the next: each thread's next operation at each point.

ghost use Rattle.std.specs.Prelude.{◌≡◌, ◌<◌, ◌≤◌, ◌^◌, ℕ, List, drop, length, map, Err, IfOk, OnOk};
ghost use Rattle.litmus_reader.specs.TestViews.{test_of};
ghost use Rattle.sequential_machine.specs.Turns.{Point, turned, values_at};
ghost use Rattle.sequential_ends.specs.Packed.{packed, packed_lists, IsRowOf, AreRowsOf};
ghost use Rattle.sequential_ends.specs.Rows.{rows_in, with_ordered};
ghost use Rattle.sequential_ends.specs.Orders.{with_turn, IsOrderOf, AreLed, AreEndOrders};
ghost use Rattle.sequential_ends.specs.Layers.{with_turns, has_turn, behind, with_end, with_ends};

use crate::error::LayerError;
use crate::points::{row_with_received, split_first_list, thread_after_received};
use crate::rows::Rows;
use crate::words::words_after_op;
use litmus_reader::{Test, ThreadState};
use physiological_order::Op;
use std::alloc::{AllocError, Global};

// Adds a row with its order, unless there are more than `room` then.
fn add_point_row(
    rows: &mut Rows,
    row: Vec<u64>,
    order: Vec<u8>,
    room: usize,
) -> Result<(), LayerError>
    ensures added { OnOk result (rows.new ≡ with_ordered rows.old (row.items, order.items)) }
    ensures few { OnOk result (length rows.new ≤ room) }
    ensures many { result ≡ Err LayerError.TooMany →
        room < length (with_ordered rows.old (row.items, order.items)) }
    ensures small { result ≡ Err LayerError.TooMany → room < 2 ^ 63 }
{
    rows.add(row, order)?;
    if rows.len() > room {
        return Err(LayerError::TooMany);
    }
    Ok(())
}

// The row behind a thread's operation, with memory for so many words at first.
fn row_after_turn(
    alloc: Global,
    words: &[u64],
    lists: &[u64],
    left: &[u64],
    op: Op,
    capacity: usize,
) -> Result<Vec<u64>, AllocError>
    requires { length left.now ≤ length lists.now }
    ensures { (p : Point) (t : ℕ) → t < length p.received → words.now ≡ p.words →
        lists.now ≡ packed_lists p.received → left.now ≡ packed_lists (drop t p.received) →
        IfOk result (λ row. row.items ≡ packed (turned p t op)) }
{
    let (after, value) = words_after_op(alloc, words, op)?;
    let (list, behind) = split_first_list(left);
    let before = &lists[..lists.len() - left.len()];
    row_with_received(alloc, capacity, &after, before, list, value, behind)
}

// An order with a turn of this thread behind it, if orders are asked for.
fn order_with_turn(
    alloc: Global,
    has_orders: bool,
    order: &[u8],
    thread: usize,
) -> Result<Vec<u8>, AllocError>
    requires { thread < 16 }
    ensures { IfOk result (λ after. after.items ≡ with_turn has_orders order.now thread) }
{
    if !has_orders {
        return Ok(Vec::new(alloc));
    }
    let mut after = Vec::with_capacity(alloc, order.len() + 1)?;
    after.extend_from_slice(order)?;
    after.push(thread as u8)?;
    Ok(after)
}

// Adds what each thread's next operation leads to from a point, and answers whether there is one.
fn add_successors(
    alloc: Global,
    test: &Test,
    has_orders: bool,
    row: &[u64],
    order: &[u8],
    next: &mut Rows,
    room: usize,
) -> Result<bool, LayerError>
    requires few { length next.old ≤ room }
    ensures few { OnOk result (length next.new ≤ room) }
    ensures turns { (p : Point) (points : List Point) → IsRowOf (test_of test.now) p row.now →
        rows_in next.old ≡ map packed points → OnOk result (rows_in next.new
        ≡ map packed (with_turns (test_of test.now) p (test_of test.now).threads points)) }
    ensures moved { (p : Point) → IsRowOf (test_of test.now) p row.now → IfOk result (λ moved.
        moved ≡ has_turn (test_of test.now) p (test_of test.now).threads) }
    ensures led { (p : Point) → IsRowOf (test_of test.now) p row.now →
        IsOrderOf has_orders (test_of test.now) order.now p →
        AreLed has_orders (test_of test.now) next.old →
        OnOk result (AreLed has_orders (test_of test.now) next.new) }
    ensures many { (p : Point) (points : List Point) → IsRowOf (test_of test.now) p row.now →
        rows_in next.old ≡ map packed points → result ≡ Err LayerError.TooMany →
        room < length (with_turns (test_of test.now) p (test_of test.now).threads points) }
    ensures small { result ≡ Err LayerError.TooMany → room < 2 ^ 63 }
{
    let (words, lists) = split_first_list(row);
    let capacity = row.len() + 1;
    let mut left = lists;
    let mut moved = false;
    for thread in 0..test.threads() {
        let (list, behind) = split_first_list(left);
        if let Some(op) = thread_after_received(test, thread, list).next() {
            let after = row_after_turn(alloc, words, lists, left, op, capacity)?;
            let led = order_with_turn(alloc, has_orders, order, thread)?;
            if let Err(error) = add_point_row(next, after, led, room) {
                return Err(error);
            }
            moved = true;
        }
        left = behind;
    }
    Ok(moved)
}

// The values of the condition's names at a point.
fn values_at_point(alloc: Global, test: &Test, row: &[u64]) -> Result<Vec<u64>, AllocError>
    ensures { (p : Point) → IsRowOf (test_of test.now) p row.now →
        IfOk result (λ values. values.items ≡ values_at (test_of test.now) p) }
{
    let (words, lists) = split_first_list(row);
    let mut threads: Vec<ThreadState<'_>> = Vec::new(alloc);
    let mut left = lists;
    for thread in 0..test.threads() {
        let (list, behind) = split_first_list(left);
        threads.push(thread_after_received(test, thread, list))?;
        left = behind;
    }
    let state = test.end(&threads, words)?;
    Vec::from_slice(alloc, state.values())
}

// Adds what each thread's next operation leads to from a point, or to the ends what the names have there, if there is
// no such operation.
fn expand_point(
    alloc: Global,
    test: &Test,
    has_orders: bool,
    row: &[u64],
    order: &[u8],
    next: &mut Rows,
    ends: &mut Rows,
    room: usize,
) -> Result<(), LayerError>
    requires few { length next.old ≤ room }
    ensures few { OnOk result (length next.new ≤ room) }
    ensures next { (p : Point) (points : List Point) → IsRowOf (test_of test.now) p row.now →
        rows_in next.old ≡ map packed points → OnOk result (rows_in next.new
        ≡ map packed (with_turns (test_of test.now) p (test_of test.now).threads points)) }
    ensures ends { (p : Point) → IsRowOf (test_of test.now) p row.now →
        OnOk result (rows_in ends.new ≡ with_end (test_of test.now) (rows_in ends.old) p) }
    ensures led { (p : Point) → IsRowOf (test_of test.now) p row.now →
        IsOrderOf has_orders (test_of test.now) order.now p →
        AreLed has_orders (test_of test.now) next.old →
        OnOk result (AreLed has_orders (test_of test.now) next.new) }
    ensures orders { (p : Point) → IsRowOf (test_of test.now) p row.now →
        IsOrderOf has_orders (test_of test.now) order.now p →
        AreEndOrders has_orders (test_of test.now) ends.old →
        OnOk result (AreEndOrders has_orders (test_of test.now) ends.new) }
    ensures many { (p : Point) (points : List Point) → IsRowOf (test_of test.now) p row.now →
        rows_in next.old ≡ map packed points → result ≡ Err LayerError.TooMany →
        room < length (with_turns (test_of test.now) p (test_of test.now).threads points) }
    ensures small { result ≡ Err LayerError.TooMany → room < 2 ^ 63 }
{
    match add_successors(alloc, test, has_orders, row, order, next, room) {
        Err(error) => return Err(error),
        Ok(true) => return Ok(()),
        Ok(false) => {}
    }
    let values = values_at_point(alloc, test, row)?;
    ends.add(values, Vec::from_slice(alloc, order)?)?;
    Ok(())
}

/// The points of the next layer; what the names have where no thread has an operation left is added to the ends.
pub(crate) fn next_layer(
    alloc: Global,
    test: &Test,
    has_orders: bool,
    layer: &Rows,
    ends: &mut Rows,
    room: usize,
) -> Result<Rows, LayerError>
    ensures few { IfOk result (λ next. length next ≤ room) }
    ensures next { (points : List Point) → AreRowsOf (test_of test.now) points (rows_in layer.now) →
        IfOk result (λ next. rows_in next ≡ map packed (behind (test_of test.now) points)) }
    ensures ends { (points : List Point) → AreRowsOf (test_of test.now) points (rows_in layer.now) →
        OnOk result (rows_in ends.new ≡ with_ends (test_of test.now) (rows_in ends.old) points) }
    ensures led { AreLed has_orders (test_of test.now) layer.now →
        IfOk result (AreLed has_orders (test_of test.now)) }
    ensures orders { AreLed has_orders (test_of test.now) layer.now →
        AreEndOrders has_orders (test_of test.now) ends.old →
        OnOk result (AreEndOrders has_orders (test_of test.now) ends.new) }
    ensures many { (points : List Point) → AreRowsOf (test_of test.now) points (rows_in layer.now) →
        result ≡ Err LayerError.TooMany → room < length (behind (test_of test.now) points) }
    ensures small { result ≡ Err LayerError.TooMany → room < 2 ^ 63 }
{
    let mut next = Rows::new(alloc);
    for number in 0..layer.len() {
        if let Some((row, order)) = layer.get(number) {
            let added = expand_point(alloc, test, has_orders, row, order, &mut next, ends, room);
            if let Err(error) = added {
                return Err(error);
            }
        }
    }
    Ok(next)
}
