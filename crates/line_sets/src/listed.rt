//! Which lines of a table are listed, and which are looked for.
ghost use Rattle.std.specs.Prelude.{◌≡◌, ◌≤◌, ◌-◌, ◌+◌, Bool, IfOk, Some, get_or, not, slice_set};
ghost use Rattle.line_sets.specs.SetTable.{count_of};
ghost use Rattle.line_sets.specs.Stored.{CanCount};

use network::LineNo;
use std::alloc::AllocError;

/// What is kept of a line, and whether it makes the line one of those that are listed.
pub trait Listed {
    ghost is_listed: { Self → Bool };

    /// Whether the line is listed.
    fn is_listed(&self) -> bool
        ensures { result ≡ is_listed self.now };
}

/// A test of what is kept of a line.
pub trait LineTest<V> {
    ghost passes: { Self → V → Bool };

    /// Whether the value passes.
    fn passes(&self, value: &V) -> bool
        ensures { result ≡ passes self.now value.now };
}

/// How many values this is of those that are listed: one or none.
pub(crate) fn count_if_listed<V: Listed>(value: &V) -> usize
    ensures count { result ≡ count_of V.is_listed (Some value.now) }
    ensures one { result ≤ 1 }
{
    if value.is_listed() { 1 } else { 0 }
}

/// How many values this is of those that aren't listed: one or none.
#[inline(always)]
pub(crate) fn count_if_unlisted<V: Listed>(value: &V) -> u8
    ensures count { result ≡ count_of (λ x. not (V.is_listed x)) (Some value.now) }
    ensures one { result ≤ 1 }
{
    if value.is_listed() { 0 } else { 1 }
}

/// Lowers the count of a set by a number, and raises it by another one.
#[inline(always)]
pub(crate) fn update_set_count(counts: &mut Vec<u8>, set: usize, before: u8, after: u8)
    requires { CanCount counts.old.items set before after }
    ensures { counts.new.items ≡ slice_set counts.old.items set
        (get_or counts.old.items set 0 - before + after) }
{
    counts[set] = counts[set] - before + after;
}

/// The number of a line, if there is one.
pub(crate) fn number_of_line(line: Option<LineNo>) -> Option<u64>
    ensures { result ≡ line }
{
    match line {
        None => None,
        Some(line) => Some(line.0),
    }
}

/// Numbers as those of lines.
pub fn line_numbers(numbers: Vec<u64>) -> Result<Vec<LineNo>, AllocError>
    ensures { IfOk result (λ lines. lines.items ≡ numbers.items) }
{
    let alloc = *numbers.allocator();
    numbers
        .into_iter()
        .map(|number| LineNo(number))
        .collect(alloc)
}
