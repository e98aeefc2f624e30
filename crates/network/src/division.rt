//! Division of the numbers of words and lines. It needs no division by the processor if a machine has the usual sizes:
//! one bank, lines of one or eight words, a power of two as the number of sets.
ghost use Rattle.std.specs.Prelude.{◌≡◌, ◌<◌, ◌/◌, ◌%◌};

/// A number divided by another one, which is above 0, rounded down.
#[inline(always)]
pub fn quotient(number: u64, by: u64) -> u64
    requires { 0 < by }
    ensures { result ≡ number / by }
{
    match by {
        1 => number,
        8 => number / 8,
        _ => number / by,
    }
}

/// The remainder of a number divided by another one, which is above 0.
#[inline(always)]
pub fn remainder(number: u64, by: u64) -> u64
    requires { 0 < by }
    ensures { result ≡ number % by }
{
    let mask = by - 1;
    if by & mask == 0 {
        return number & mask;
    }
    number % by
}
