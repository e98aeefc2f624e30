//! Points, each packed in a row: the words, and then what each thread received, every list behind its length.

ghost use Rattle.std.specs.Prelude.{◌≡◌, ◌+◌, ◌<◌, ◌≤◌, ◌++◌, ◌∷◌, ℕ, List, length, IfOk, OnOk};
ghost use Rattle.litmus_reader.specs.TestViews.{test_of};
ghost use Rattle.sequential_machine.specs.Turns.{point_opened, resumed, thread_started};
ghost use Rattle.sequential_ends.specs.Packed.{packed};

use crate::words::opening_words;
use litmus_reader::{Test, ThreadState};
use std::alloc::{AllocError, Global};

/// The first list of a row, and the row behind it.
pub(crate) fn split_first_list(row: &[u64]) -> (&[u64], &[u64])
    ensures split { (list behind : List ℕ) → row.now ≡ length list ∷ list ++ behind →
        (result.0.now ≡ list) × (result.1.now ≡ behind) }
    ensures shorter { length result.1.now ≤ length row.now }
{
    let Some((count, rest)) = row.split_first() else {
        return (row, row);
    };
    let count = *count as usize;
    if count > rest.len() {
        return (row, row);
    }
    rest.split_at(count)
}

/// A list, behind its length.
fn push_list_with_length(row: &mut Vec<u64>, list: &[u64]) -> Result<(), AllocError>
    ensures { OnOk result (row.new.items ≡ row.old.items ++ length list.now ∷ list.now) }
{
    row.push(list.len() as u64)?;
    row.extend_from_slice(list)
}

/// The row of the point that the test opens.
pub(crate) fn opening_row(alloc: Global, test: &Test) -> Result<Vec<u64>, AllocError>
    ensures { IfOk result (λ row. row.items ≡ packed (point_opened (test_of test.now))) }
{
    let words = opening_words(alloc, test)?;
    let mut row = Vec::new(alloc);
    push_list_with_length(&mut row, &words)?;
    for _ in 0..test.threads() {
        row.push(0)?;
    }
    Ok(row)
}

/// A row with one value more in one of its lists: the words, the lists before it, the list, the value and what is
/// behind the list. It has memory for `capacity` words at first.
pub(crate) fn row_with_received(
    alloc: Global,
    capacity: usize,
    words: &[u64],
    before: &[u64],
    list: &[u64],
    value: u64,
    behind: &[u64],
) -> Result<Vec<u64>, AllocError>
    ensures { IfOk result (λ row. row.items ≡ length words.now ∷ words.now ++ before.now
        ++ (length list.now + 1) ∷ list.now ++ value ∷ behind.now) }
{
    let mut row = Vec::with_capacity(alloc, capacity)?;
    push_list_with_length(&mut row, words)?;
    row.extend_from_slice(before)?;
    row.push(list.len() as u64 + 1)?;
    row.extend_from_slice(list)?;
    row.push(value)?;
    row.extend_from_slice(behind)?;
    Ok(row)
}

/// A thread once its first operations received these values.
pub(crate) fn thread_after_received<'a>(
    test: &'a Test,
    thread: usize,
    received: &[u64],
) -> ThreadState<'a>
    requires { thread < 16 }
    ensures { result ≡ resumed (thread_started (test_of test.now) thread) received.now }
{
    let mut state = test.start(thread as u8);
    let mut left = received;
    while let Some((value, rest)) = left.split_first() {
        state.done(Some(*value));
        left = rest;
    }
    state
}
