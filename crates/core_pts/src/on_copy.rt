//! What an operation does with a copy of its line: whether the copy serves it, when, and what is left.
ghost use Rattle.std.specs.Prelude.{◌≡◌, ◌<◌};
ghost use Rattle.core_pts.specs.OnCopy.{copy_after, is_exclusive, read_at, received_at, serves, time_of};
ghost use Rattle.core_pts.specs.OnCopy.{words_of_copy, write_time, written_at};

use network::TimedLine;
use physiological_order::Op;
use private_cache::{CopyState, LineCopy};

// Whether a copy is one that its core owns.
#[inline(always)]
pub(crate) fn is_exclusive(state: CopyState) -> bool
    ensures { result ≡ is_exclusive state }
{
    match state {
        CopyState::Shared => false,
        CopyState::Exclusive => true,
    }
}

// Whether a copy serves an operation at the core's time.
#[inline(always)]
pub(crate) fn copy_serves_operation(op: &Op, pts: u64, copy: &LineCopy) -> bool
    ensures { result ≡ serves op.now pts copy.now }
{
    match *op {
        Op::Load(_) => is_exclusive(copy.state) || pts <= copy.rts,
        Op::Store(_, _) => is_exclusive(copy.state),
        Op::Swap(_, _) => is_exclusive(copy.state),
    }
}

// The time of a store or swap, or nothing if it doesn't fit.
#[inline(always)]
fn write_time(private_write: bool, pts: u64, copy: &LineCopy) -> Option<u64>
    ensures { result ≡ write_time private_write pts copy.now }
{
    if private_write && copy.written {
        return Some(pts.max(copy.rts));
    }
    match copy.rts.checked_add(1) {
        Some(later) => Some(pts.max(later)),
        None => None,
    }
}

// The time of an operation that a copy serves, or nothing if it doesn't fit.
#[inline(always)]
pub(crate) fn completion_time(
    private_write: bool,
    pts: u64,
    op: &Op,
    copy: &LineCopy,
) -> Option<u64>
    ensures { result ≡ time_of private_write pts op.now copy.now }
{
    match *op {
        Op::Load(_) => Some(pts.max(copy.wts)),
        Op::Store(_, _) => write_time(private_write, pts, copy),
        Op::Swap(_, _) => write_time(private_write, pts, copy),
    }
}

// What an operation receives, if its word is at this index of the line.
#[inline(always)]
pub(crate) fn received_value(index: usize, op: &Op, copy: &LineCopy) -> Option<u64>
    requires { index < 8 }
    ensures { result ≡ received_at index op.now copy.now }
{
    match *op {
        Op::Load(_) => Some(copy.words.get(index)),
        Op::Store(_, _) => None,
        Op::Swap(_, _) => Some(copy.words.get(index)),
    }
}

// A copy whose word was written at a time.
#[inline(always)]
fn written_at(index: usize, ts: u64, value: u64, copy: &LineCopy) -> LineCopy
    requires { index < 8 }
    ensures { result ≡ written_at index ts value copy.now }
{
    let mut words = copy.words;
    words.set(index, value);
    LineCopy {
        state: copy.state,
        wts: ts,
        rts: ts,
        words,
        written: true,
    }
}

// The copy after an operation at a time.
#[inline(always)]
pub(crate) fn copy_after_operation(index: usize, ts: u64, op: &Op, copy: &LineCopy) -> LineCopy
    requires { index < 8 }
    ensures { result ≡ copy_after index ts op.now copy.now }
{
    match *op {
        Op::Load(_) => copy_after_load(ts, copy),
        Op::Store(_, value) => written_at(index, ts, value, copy),
        Op::Swap(_, value) => written_at(index, ts, value, copy),
    }
}

// The copy after a load at a time: an owner's lease goes on to it.
#[inline(always)]
fn copy_after_load(ts: u64, copy: &LineCopy) -> LineCopy
    ensures { result ≡ read_at ts copy.now }
{
    if !is_exclusive(copy.state) {
        return *copy;
    }
    LineCopy {
        rts: ts.max(copy.rts),
        ..*copy
    }
}

// A copy's words and times.
#[inline(always)]
pub(crate) fn words_of_copy(copy: &LineCopy) -> TimedLine
    ensures { result ≡ words_of_copy copy.now }
{
    TimedLine {
        wts: copy.wts,
        rts: copy.rts,
        words: copy.words,
    }
}
