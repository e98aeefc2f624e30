//! Fields that are read from the left, each by its rule.

ghost use Rattle.std.specs.Prelude.{◌≡◌, ◌≤◌, ◌<◌, ◌^◌, IfOk};
ghost use Rattle.trace_lines.specs.Fields.{fields_of};
ghost use Rattle.trace_lines.specs.Reading.{field_at, decimal_in, core_at, place_at, number_field_at};
ghost use Rattle.trace_lines.specs.Reading.{operation_at, address_at};
ghost use Rattle.trace_lines.specs.Views.{GivesViewed, view_fields_read};

use crate::errors::Kind;
use crate::lines::skip_leading_blanks;
use crate::steps::Access;
use crate::words::{VALUE_BOUND, access_of_letter, read_address, read_letter, read_number};

/// One more than the largest number of 32 bits.
const PLACE_BOUND: u128 = 1 << 32;

#[inline(always)]
#[tactic(auto, unfolding(crate::specs::Reading::field_at))]
fn read_decimal_field<'a>(
    line: &'a [u8],
    digits: usize,
    bound: u128,
    kind: Kind,
) -> Result<(u64, &'a [u8]), Kind>
    requires { bound ≤ 2 ^ 64 }
    ensures read { GivesViewed view_fields_read result
        (field_at kind (decimal_in digits bound) (fields_of line.now)) }
    ensures small { IfOk result (λ read. read.0 < bound) }
{
    match read_number(false, skip_leading_blanks(line), digits, bound) {
        Some(read) => Ok(read),
        None => Err(kind),
    }
}

/// A core's number, below `cores`.
#[inline(always)]
#[tactic(auto, unfolding(crate::specs::Reading::core_at))]
pub(crate) fn read_core_field<'a>(line: &'a [u8], cores: u8) -> Result<(u32, &'a [u8]), Kind>
    ensures { GivesViewed view_fields_read result (core_at cores (fields_of line.now)) }
{
    let (core, rest) = read_decimal_field(line, 2, u128::from(cores), Kind::BadCore)?;
    Ok((core as u32, rest))
}

/// The place of an operation in its core's program order.
#[inline(always)]
#[tactic(auto, unfolding(crate::specs::Reading::place_at))]
pub(crate) fn read_place_field(line: &[u8]) -> Result<(u32, &[u8]), Kind>
    ensures { GivesViewed view_fields_read result (place_at (fields_of line.now)) }
{
    let (place, rest) = read_decimal_field(line, 20, PLACE_BOUND, Kind::BadValue)?;
    Ok((place as u32, rest))
}

/// A value, a received value, a time or a completion number.
#[inline(always)]
#[tactic(auto, unfolding(crate::specs::Reading::number_field_at))]
pub(crate) fn read_number_field(line: &[u8]) -> Result<(u64, &[u8]), Kind>
    ensures { GivesViewed view_fields_read result (number_field_at (fields_of line.now)) }
{
    read_decimal_field(line, 20, VALUE_BOUND, Kind::BadValue)
}

/// The access that `R`, `W` or `S` stands for.
#[inline(always)]
#[tactic(auto, unfolding(crate::specs::Reading::operation_at, crate::specs::Reading::field_at))]
pub(crate) fn read_access_field(line: &[u8]) -> Result<(Access, &[u8]), Kind>
    ensures { GivesViewed view_fields_read result (operation_at (fields_of line.now)) }
{
    let Some((letter, rest)) = read_letter(skip_leading_blanks(line)) else {
        return Err(Kind::BadOperation);
    };
    match access_of_letter(letter) {
        Some(access) => Ok((access, rest)),
        None => Err(Kind::BadOperation),
    }
}

/// The number of a byte address's word.
#[inline(always)]
#[tactic(auto, unfolding(crate::specs::Reading::address_at, crate::specs::Reading::field_at))]
pub(crate) fn read_address_field(line: &[u8]) -> Result<(u64, &[u8]), Kind>
    ensures read { GivesViewed view_fields_read result (address_at (fields_of line.now)) }
    ensures small { IfOk result (λ read. read.0 < 2 ^ 61) }
{
    match read_address(skip_leading_blanks(line)) {
        Some(read) => Ok(read),
        None => Err(Kind::BadAddress),
    }
}
