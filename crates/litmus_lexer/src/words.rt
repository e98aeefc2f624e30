//! What single words say.

ghost use Rattle.std.specs.Prelude.{◌≡◌, min};
ghost use Rattle.std.specs.List.{list_all};
ghost use Rattle.litmus_lexer.specs.Spelling.{is_digit, is_number, value_of_digits, small_of, register_of};
ghost use Rattle.litmus_lexer.specs.Spelling.{is_name_byte};
ghost use Rattle.litmus_lexer.specs.Spelling.{is_like_register, is_location};

use crate::bytes::{is_digit, is_name_byte};
use crate::limits::{LAST_REGISTER, LONGEST_LOCATION, VALUE_BOUND};

fn all_digits(word: &[u8]) -> bool
    ensures { result ≡ list_all is_digit word.now }
{
    word.iter().all(|b| is_digit(*b))
}

/// Whether it is one or more digits.
pub fn is_number(word: &[u8]) -> bool
    ensures { result ≡ is_number word.now }
{
    !word.is_empty() && all_digits(word)
}

/// The value of digits if it is below `VALUE_BOUND`, and else `VALUE_BOUND`.
pub fn capped_number(word: &[u8]) -> u32
    ensures { result ≡ min (value_of_digits word.now) VALUE_BOUND }
{
    let mut value = 0u64;
    for digit in word {
        value = (10 * value + u64::from(digit.saturating_sub(b'0'))).min(u64::from(VALUE_BOUND));
    }
    value as u32
}

/// A number of one or two digits up to a limit, at least 9, without a leading zero.
pub fn small_number(word: &[u8], most: u8) -> Option<u8>
    ensures { result ≡ small_of most word.now }
{
    match word {
        [a @ b'0'..=b'9'] => Some(a - b'0'),
        [a @ b'1'..=b'9', b @ b'0'..=b'9'] => {
            let value = 10 * (a - b'0') + (b - b'0');
            if value <= most { Some(value) } else { None }
        }
        _ => None,
    }
}

/// The number of a register, 0 to 31.
pub fn register_number(word: &[u8]) -> Option<u8>
    ensures { result ≡ register_of word.now }
{
    match word {
        [b'x', number @ ..] => small_number(number, LAST_REGISTER),
        _ => None,
    }
}

fn all_name_bytes(word: &[u8]) -> bool
    ensures { result ≡ list_all is_name_byte word.now }
{
    word.iter().all(|b| is_name_byte(*b))
}

fn is_like_register(word: &[u8]) -> bool
    ensures { result ≡ is_like_register word.now }
{
    match word {
        [b'x', number @ ..] => is_number(number),
        _ => false,
    }
}

/// Whether a word can be the name of a location: a letter or `_` followed by letters, digits
/// and `_`, 1 to 32 characters, and not `x` followed by digits alone.
pub fn is_location(word: &[u8]) -> bool
    ensures { result ≡ is_location word.now }
{
    match word {
        [first, ..] => {
            !is_digit(*first)
                && all_name_bytes(word)
                && word.len() <= LONGEST_LOCATION
                && !is_like_register(word)
        }
        [] => false,
    }
}
