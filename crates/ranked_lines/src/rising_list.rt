//! One rising list of numbers: the places in it, and what is put in or taken out.
ghost use Rattle.std.specs.Prelude.{◌≡◌, ◌≤◌, ◌<◌, length, nat_le, nat_lt, slice_get};
ghost use Rattle.std.specs.List.{prefix_len};
ghost use Rattle.ranked_lines.specs.Rising.{all_below, all_but, put_in, take_out, Rises};

use crate::search::{count_numbers_below, count_numbers_up_to};
use arrayvec::ArrayVec;

/// A list of at most 128 numbers, which lie in the value itself.
pub(crate) type Block = ArrayVec<u64, 128>;

/// Puts a number into its place in a rising list that has room.
pub(crate) fn put_in_rising_list(numbers: &mut Block, number: u64)
    requires rises { Rises numbers.old.items }
    requires room { length numbers.old.items < 128 }
    ensures { numbers.new.items ≡ put_in number numbers.old.items }
{
    let at = count_numbers_below(numbers.as_slice(), number);
    numbers.insert(at, number);
}

/// Takes the first number that isn't below a number out of a rising list.
pub(crate) fn take_out_of_rising_list(numbers: &mut Block, number: u64)
    requires { Rises numbers.old.items }
    ensures { numbers.new.items ≡ take_out number numbers.old.items }
{
    let at = count_numbers_below(numbers.as_slice(), number);
    if at < numbers.len() {
        let _number = numbers.remove(at);
    }
}

/// Where the number stands in a rising list that comes after so many others but one number, where there are so many
/// numbers but that one.
#[inline(always)]
pub(crate) fn index_without_number(
    numbers: &[u64],
    but: Option<u64>,
    here: usize,
    at: usize,
) -> usize
    requires rises { Rises numbers.now }
    requires here { here ≡ length (all_but but numbers.now) }
    requires most { here ≤ length numbers.now }
    requires inside { at < here }
    ensures within { result < length numbers.now }
    ensures number { slice_get numbers.now result ≡ slice_get (all_but but numbers.now) at }
{
    let Some(but) = but else {
        return at;
    };
    if numbers[at] < but {
        return at;
    }
    at + (numbers.len() - here)
}

/// How many numbers of a rising list there are but one number. A list that ends below it, or begins above, is searched
/// no further.
#[inline(always)]
pub(crate) fn count_without_number(numbers: &[u64], but: Option<u64>) -> usize
    requires rises { Rises numbers.now }
    requires few { length numbers.now ≤ 128 }
    ensures { result ≡ length (all_but but numbers.now) }
{
    let Some(but) = but else {
        return numbers.len();
    };
    let count = numbers.len();
    if count == 0 {
        return count;
    }
    if numbers[count - 1] < but {
        return count;
    }
    if but < numbers[0] {
        return count;
    }
    count - (count_numbers_up_to(numbers, but) - count_numbers_below(numbers, but))
}

/// Whether the last number of a rising list is below a number, and so all are.
pub(crate) fn list_ends_below(numbers: &[u64], number: u64) -> bool
    requires rises { Rises numbers.now }
    requires some { 0 < length numbers.now }
    ensures { result ≡ all_below number numbers.now }
{
    numbers[numbers.len() - 1] < number
}
