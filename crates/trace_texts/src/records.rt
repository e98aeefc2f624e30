//! The text of a list of records.

ghost use Rattle.std.specs.Prelude.{◌≡◌, ◌+◌, ◌≤◌, ◌++◌, drop, length, IfOk, OnOk};
ghost use Rattle.trace_texts.specs.Records.{AreComplete, AreRanged, IsRanged, IsRangedEnd};
ghost use Rattle.trace_texts.specs.Records.{end_text, record_text, records_text};
ghost use Rattle.trace_reader.specs.declared.limits.TheConstants.{MOST_LINES};
ghost use Rattle.trace_reader.specs.Grammar.{AreRecords};
ghost use Rattle.text_lines.specs.Lines.{lines_of};

use crate::fields::{write_op, write_spaced_number, write_spaced_value};
use itoa::write_digits;
use physiological_order::Record;
use std::alloc::{AllocError, Global};

/// Bytes for a line, if each of its numbers had 20 digits.
const ROOM: usize = 147;

/// What follows the operation: where it begins.
fn write_record_end(told: &Record, bytes: &mut [u8], end: usize) -> usize
    requires room { 64 ≤ end }
    requires within { end ≤ length bytes.old }
    ensures written { drop result bytes.new ≡ end_text told.now ++ drop end bytes.old }
    ensures begins { end ≤ result + 64 }
    ensures ends { result ≤ end }
    ensures ranged { IsRangedEnd told.now }
{
    bytes[end - 1] = b'\n';
    let at = write_spaced_number(told.number, bytes, end - 1);
    let at = write_spaced_number(told.ts, bytes, at);
    write_spaced_value(told.received, bytes, at)
}

/// A line: where it begins.
fn write_record(told: &Record, bytes: &mut [u8], end: usize) -> usize
    requires room { 147 ≤ end }
    requires within { end ≤ length bytes.old }
    ensures written { drop result bytes.new ≡ record_text told.now ++ drop end bytes.old }
    ensures ranged { IsRanged told.now }
{
    let at = write_record_end(told, bytes, end);
    let at = write_op(told.op, bytes, at);
    let at = write_spaced_number(u64::from(told.place), bytes, at);
    write_digits(u64::from(told.core), bytes, at)
}

fn put_record(out: &mut Vec<u8>, told: &Record) -> Result<(), AllocError>
    ensures text { OnOk result (out.new.items ≡ out.old.items ++ record_text told.now) }
    ensures ranged { OnOk result (IsRanged told.now) }
{
    let mut bytes = [0; ROOM];
    let at = write_record(told, &mut bytes, ROOM);
    out.extend_from_slice(&bytes[at..])
}

/// The text of records, a line each in the order in which they are given: numbers in decimal and addresses in
/// hexadecimal digits without leading zeros, fields parted by one space, each line ended by a line feed
/// (docs/TEXTS.md).
pub fn records_text(alloc: Global, records: &[Record]) -> Result<Vec<u8>, AllocError>
    ensures text { IfOk result (λ text. text.items ≡ records_text records.now) }
    // The text of records of cores below 64, with a received value exactly where there is one to receive, has a line
    // for each. If these are no more than a text may have, it stands in the grammar for the records.
    ensures lines { IfOk result (λ text. AreComplete records.now →
        length (lines_of text.items) ≡ length records.now) }
    ensures stands { IfOk result (λ text. AreComplete records.now →
        length records.now ≤ MOST_LINES → AreRecords text.items records.now) }
    // So has a text that was written in parts, each of records whose numbers are in the ranges of their types.
    ensures ranged { IfOk result (λ text. AreRanged records.now) }
{
    let mut text = Vec::new(alloc);
    for told in records {
        put_record(&mut text, told)?;
    }
    Ok(text)
}
