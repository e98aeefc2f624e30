//! A search in a short rising list. Which half it goes on in is chosen without a branch: a processor guesses such
//! branches wrong half of the time, and each wrong guess costs as much as three steps.
ghost use Rattle.std.specs.Prelude.{◌≡◌, ◌≤◌, ◌<◌, ◌+◌, ◌*◌, length, nat_le, nat_lt, ℕ};
ghost use Rattle.std.specs.List.{prefix_len};
ghost use Rattle.ranked_lines.specs.Rising.{Rises};

// The half of a part, an index and a length, in which the numbers below a number end.
#[inline(always)]
fn halve_searched_part(numbers: &[u64], number: u64, part: (usize, usize)) -> (usize, usize)
    requires rises { Rises numbers.now }
    requires some { 0 < part.1 }
    requires inside { part.0 + part.1 ≤ length numbers.now }
    requires from { part.0 ≤ prefix_len (λ y. nat_lt y number) numbers.now }
    requires to { prefix_len (λ y. nat_lt y number) numbers.now ≤ part.0 + part.1 }
    ensures some { 0 < result.1 }
    ensures inside { result.0 + result.1 ≤ length numbers.now }
    ensures from { result.0 ≤ prefix_len (λ y. nat_lt y number) numbers.now }
    ensures to { prefix_len (λ y. nat_lt y number) numbers.now ≤ result.0 + result.1 }
    ensures half { (most : ℕ) → part.1 ≤ 2 * most → result.1 ≤ most }
{
    let (from, count) = part;
    let half = count / 2;
    let middle = from + half;
    let begin = if numbers[middle] < number {
        middle
    } else {
        from
    };
    (begin, count - half)
}

/// How many numbers of a rising list of at most 128 are below a number. Seven halves leave one of them. A loop would
/// make the choices branches again.
pub(crate) fn count_numbers_below(numbers: &[u64], number: u64) -> usize
    requires rises { Rises numbers.now }
    requires few { length numbers.now ≤ 128 }
    ensures bound { result ≤ length numbers.now }
    ensures count { result ≡ prefix_len (λ y. nat_lt y number) numbers.now }
{
    if numbers.is_empty() {
        return 0;
    }
    let of_64 = halve_searched_part(numbers, number, (0, numbers.len()));
    let of_32 = halve_searched_part(numbers, number, of_64);
    let of_16 = halve_searched_part(numbers, number, of_32);
    let of_8 = halve_searched_part(numbers, number, of_16);
    let of_4 = halve_searched_part(numbers, number, of_8);
    let of_2 = halve_searched_part(numbers, number, of_4);
    let (last, _one) = halve_searched_part(numbers, number, of_2);
    if numbers[last] < number {
        last + 1
    } else {
        last
    }
}

/// How many numbers of a rising list of at most 128 are at most a number.
pub(crate) fn count_numbers_up_to(numbers: &[u64], number: u64) -> usize
    requires rises { Rises numbers.now }
    requires few { length numbers.now ≤ 128 }
    ensures bound { result ≤ length numbers.now }
    ensures count { result ≡ prefix_len (λ y. nat_le y number) numbers.now }
{
    if number == u64::MAX {
        return numbers.partition_point(|y| *y <= number);
    }
    count_numbers_below(numbers, number + 1)
}
