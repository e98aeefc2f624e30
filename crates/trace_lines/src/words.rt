//! What the field in front says, and what follows it.

ghost use Rattle.std.specs.Prelude.{◌≡◌, ◌≤◌, ◌<◌, ◌^◌, [], ◌∷◌, true, option_map, IfSome};
ghost use Rattle.std.specs.Option.{SomeIff};
ghost use Rattle.trace_lines.specs.Fronts.{front_says, is_digit_of, put_digit, number_in, number_of, letter_in};
ghost use Rattle.trace_lines.specs.Reading.{address_in, access_in};
ghost use Rattle.trace_lines.specs.Spelling.{is_hex_digit, hex_digit};
ghost use Rattle.trace_lines.specs.Views.{view_fields_read};

use crate::lines::is_field_byte;
use crate::steps::Access;
use physiological_order::WordAddr;

/// One more than the largest number of 64 bits.
pub(crate) const VALUE_BOUND: u128 = 1 << 64;

fn is_digit(is_hexadecimal: bool, b: u8) -> bool
    ensures { result ≡ is_digit_of is_hexadecimal b }
{
    matches!(b, b'0'..=b'9') || is_hexadecimal && matches!(b, b'a'..=b'f')
}

/// The value of a digit, a hexadecimal one too.
fn digit_value(b: u8) -> u8
    requires { is_hex_digit b ≡ true }
    ensures { result ≡ hex_digit b }
{
    b % 16 + 9 * (b / 64)
}

/// A number with one more digit, if it fits 64 bits.
fn with_digit(is_hexadecimal: bool, value: u64, b: u8) -> Option<u64>
    requires { is_digit_of is_hexadecimal b ≡ true }
    ensures { SomeIff result (put_digit is_hexadecimal value b < 2 ^ 64) (put_digit is_hexadecimal value b) }
{
    let most = if is_hexadecimal {
        value.checked_mul(16)
    } else {
        value.checked_mul(10)
    };
    most?.checked_add(u64::from(digit_value(b)))
}

/// The number of the field in front, and the field's length; nothing if a byte of it is no digit, or the number doesn't
/// fit 64 bits.
#[inline(always)]
fn read_digits(is_hexadecimal: bool, bytes: &[u8]) -> Option<(u64, usize)>
    ensures { result ≡ number_of (is_digit_of is_hexadecimal) (put_digit is_hexadecimal) 0 0 bytes.now }
{
    let mut value = 0u64;
    let mut count = 0;
    while count < bytes.len() && is_digit(is_hexadecimal, bytes[count]) {
        value = with_digit(is_hexadecimal, value, bytes[count])?;
        count += 1;
    }
    if count < bytes.len() && is_field_byte(bytes[count]) {
        return None;
    }
    Some((value, count))
}

/// The number of the field in front, of 1 to `most` digits, if it is below a bound, and what follows it.
#[inline(always)]
pub(crate) fn read_number(
    is_hexadecimal: bool,
    bytes: &[u8],
    most: usize,
    bound: u128,
) -> Option<(u64, &[u8])>
    requires { bound ≤ 2 ^ 64 }
    ensures number { option_map view_fields_read result
        ≡ front_says (number_in is_hexadecimal most bound) bytes.now }
    ensures small { IfSome result (λ read. read.0 < bound) }
{
    let (value, count) = read_digits(is_hexadecimal, bytes)?;
    if count == 0 || count > most || u128::from(value) >= bound {
        return None;
    }
    let (_, rest) = bytes.split_at(count);
    Some((value, rest))
}

/// The number of the word at the byte address in front, written as `0x` and 1 to 16 hexadecimal digits, if it is a
/// multiple of 8, and what follows it.
#[inline(always)]
pub(crate) fn read_address(bytes: &[u8]) -> Option<(u64, &[u8])>
    ensures number { option_map view_fields_read result ≡ front_says address_in bytes.now }
    ensures small { IfSome result (λ read. read.0 < 2 ^ 61) }
{
    if bytes.len() < 2 || bytes[0] != b'0' || bytes[1] != b'x' {
        return None;
    }
    let (_, digits) = bytes.split_at(2);
    let (byte, rest) = read_number(true, digits, 16, VALUE_BOUND)?;
    let word = WordAddr::new(byte)?;
    Some((word.word(), rest))
}

/// The field in front, if it is one byte, and what follows it.
#[inline(always)]
pub(crate) fn read_letter(bytes: &[u8]) -> Option<(u8, &[u8])>
    ensures { option_map view_fields_read result ≡ front_says letter_in bytes.now }
{
    if bytes.is_empty() || !is_field_byte(bytes[0]) || bytes.len() > 1 && is_field_byte(bytes[1]) {
        return None;
    }
    let (_, rest) = bytes.split_at(1);
    Some((bytes[0], rest))
}

/// The access that `R`, `W` or `S` stands for.
pub(crate) fn access_of_letter(letter: u8) -> Option<Access>
    ensures { result ≡ access_in (letter ∷ []) }
{
    match letter {
        b'R' => Some(Access::Read),
        b'W' => Some(Access::Write),
        b'S' => Some(Access::Swap),
        _ => None,
    }
}
