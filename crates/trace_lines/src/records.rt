//! The lines of records.

ghost use Rattle.std.specs.Prelude.{◌≡◌, [], Ok, Some, None, MatchOption, IfOk, IfErr};
ghost use Rattle.physiological_order.specs.declared.operation.Record.{Record};
ghost use Rattle.trace_lines.specs.Causes.{RecordCause};
ghost use Rattle.trace_lines.specs.Fields.{fields_of};
ghost use Rattle.trace_lines.specs.Grammar.{IsRecordLine};
ghost use Rattle.trace_lines.specs.Reading.{timed_at, record_rest_at, record_fields_at, record_line_at};

use crate::errors::Kind;
use crate::lines::{has_field, next_field};
use crate::reads::{
    read_access_field, read_address_field, read_core_field, read_number_field, read_place_field,
};
use crate::steps::Access;
use physiological_order::{Op, Record, WordAddr};

/// A record whose time and completion number follow, and no more.
#[tactic(auto, unfolding(crate::specs::Reading::timed_at, crate::specs::Reading::ended))]
fn read_record_end(
    core: u32,
    place: u32,
    op: Op,
    received: Option<u64>,
    line: &[u8],
) -> Result<Record, Kind>
    ensures { result ≡ timed_at core place op received (fields_of line.now) }
{
    let (ts, rest) = read_number_field(line)?;
    let (number, rest) = read_number_field(rest)?;
    match next_field(rest) {
        None => Ok(Record {
            core,
            place,
            op,
            received,
            ts,
            number,
        }),
        Some(_) => Err(Kind::ExtraWords),
    }
}

/// A record of an access to a word; the value that it writes and the one that it received follow.
fn read_record_rest(
    core: u32,
    place: u32,
    access: Access,
    word: WordAddr,
    line: &[u8],
) -> Result<Record, Kind>
    ensures { result ≡ record_rest_at core place access word (fields_of line.now) }
{
    match access {
        Access::Read => {
            let (received, rest) = read_number_field(line)?;
            read_record_end(core, place, Op::Load(word), Some(received), rest)
        }
        Access::Write => {
            let (value, rest) = read_number_field(line)?;
            read_record_end(core, place, Op::Store(word, value), None, rest)
        }
        Access::Swap => {
            let (value, rest) = read_number_field(line)?;
            let (received, rest) = read_number_field(rest)?;
            read_record_end(core, place, Op::Swap(word, value), Some(received), rest)
        }
    }
}

#[tactic(auto, unfolding(crate::specs::Reading::record_fields_at))]
fn read_record_fields(line: &[u8]) -> Result<Record, Kind>
    ensures { result ≡ record_fields_at (fields_of line.now) }
{
    let (core, rest) = read_core_field(line, 64)?;
    let (place, rest) = read_place_field(rest)?;
    let (access, rest) = read_access_field(rest)?;
    let (word, rest) = read_address_field(rest)?;
    read_record_rest(core, place, access, WordAddr::at(word), rest)
}

#[tactic(auto, unfolding(crate::specs::Reading::record_line_at))]
fn read_record(line: &[u8]) -> Result<Option<Record>, Kind>
    ensures { result ≡ record_line_at (fields_of line.now) }
{
    if !has_field(line) {
        return Ok(None);
    }
    let told = read_record_fields(line)?;
    Ok(Some(told))
}

/// The record that a line writes, given without its line feed, of a core 0 to 63 and a place of 32 bits; nothing if
/// the line has no fields. A fault is the first from the left: `BadCore`, `BadOperation`, `BadAddress` or `BadValue`
/// if the field is missing or is none, `ExtraWords` if more fields follow (docs/TEXTS.md).
pub fn record_line(line: &[u8]) -> Result<Option<Record>, Kind>
    ensures told { result ≡ record_line_at (fields_of line.now) }
    ensures nothing { fields_of line.now ≡ [] → result ≡ Ok None }
    ensures found { IfOk result (λ told. MatchOption told (fields_of line.now ≡ [])
        (λ read. IsRecordLine (fields_of line.now) read)) }
    ensures only { (read : Record) → IsRecordLine (fields_of line.now) read →
        result ≡ Ok (Some read) }
    ensures fault { IfErr result (λ kind. RecordCause kind (fields_of line.now)) }
{
    read_record(line)
}
