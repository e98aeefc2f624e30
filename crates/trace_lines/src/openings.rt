//! The lines of an opening.

ghost use Rattle.std.specs.Prelude.{◌≡◌, ℕ, [], Ok, Some, None, MatchOption, IfOk, IfErr};
ghost use Rattle.trace_lines.specs.Causes.{OpeningCause};
ghost use Rattle.trace_lines.specs.Fields.{fields_of};
ghost use Rattle.trace_lines.specs.Grammar.{IsOpeningLine};
ghost use Rattle.trace_lines.specs.Reading.{opening_at, opening_line_at};

use crate::errors::Kind;
use crate::lines::{has_field, next_field};
use crate::reads::{read_address_field, read_number_field};
use physiological_order::WordAddr;

/// A word and its value, where no field follows.
#[tactic(auto, unfolding(crate::specs::Reading::opening_at, crate::specs::Reading::ended))]
fn read_opening_fields(line: &[u8]) -> Result<(WordAddr, u64), Kind>
    ensures { result ≡ opening_at (fields_of line.now) }
{
    let (word, rest) = read_address_field(line)?;
    let (value, rest) = read_number_field(rest)?;
    match next_field(rest) {
        None => Ok((WordAddr::at(word), value)),
        Some(_) => Err(Kind::ExtraWords),
    }
}

#[tactic(auto, unfolding(crate::specs::Reading::opening_line_at))]
fn read_opening(line: &[u8]) -> Result<Option<(WordAddr, u64)>, Kind>
    ensures { result ≡ opening_line_at (fields_of line.now) }
{
    if !has_field(line) {
        return Ok(None);
    }
    let told = read_opening_fields(line)?;
    Ok(Some(told))
}

/// What a line of an opening says, given without its line feed: a word, and the value that it opens with; nothing if
/// the line has no fields. A fault is the first from the left: `BadAddress` or `BadValue` if the field is missing or is
/// none, `ExtraWords` if more fields follow (docs/TEXTS.md).
pub fn opening_line(line: &[u8]) -> Result<Option<(WordAddr, u64)>, Kind>
    ensures told { result ≡ opening_line_at (fields_of line.now) }
    ensures nothing { fields_of line.now ≡ [] → result ≡ Ok None }
    ensures found { IfOk result (λ told. MatchOption told (fields_of line.now ≡ [])
        (λ read. IsOpeningLine (fields_of line.now) read)) }
    ensures only { (read : ℕ × ℕ) → IsOpeningLine (fields_of line.now) read →
        result ≡ Ok (Some read) }
    ensures fault { IfErr result (λ kind. OpeningCause kind (fields_of line.now)) }
{
    read_opening(line)
}
