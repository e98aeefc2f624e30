//! The fields of a record's line, written from the last one back. Each ends before an index, and what stood from that
//! index on still stands there.

ghost use Rattle.std.specs.Prelude.{◌≡◌, ◌+◌, ◌++◌, ◌<◌, ◌≤◌, ◌^◌, [], ◌∷◌, decimal, drop, length, IfSome};
ghost use Rattle.trace_texts.specs.Records.{IsRangedOp, spaced, spaced_value, op_text};
ghost use Rattle.report_lines.specs.Hexadecimal.{address_text};

use itoa::write_digits;
use physiological_order::{Op, WordAddr};
use report_lines::write_address;

/// A letter and an address, each behind a space: where they begin.
fn write_access(letter: u8, word: WordAddr, bytes: &mut [u8], end: usize) -> usize
    requires room { 21 ≤ end }
    requires within { end ≤ length bytes.old }
    ensures written { drop result bytes.new
        ≡ spaced (letter ∷ []) ++ spaced (address_text word) ++ drop end bytes.old }
    ensures begins { end ≤ result + 21 }
    ensures ends { result ≤ end }
    ensures ranged { word < 2 ^ 61 }
{
    let _number = word.word();
    let at = write_address(word, bytes, end);
    bytes[at - 1] = b' ';
    bytes[at - 2] = letter;
    bytes[at - 3] = b' ';
    at - 3
}

/// A number behind a space: where they begin.
pub(crate) fn write_spaced_number(number: u64, bytes: &mut [u8], end: usize) -> usize
    requires room { 21 ≤ end }
    requires within { end ≤ length bytes.old }
    ensures written { drop result bytes.new ≡ spaced (decimal number) ++ drop end bytes.old }
    ensures ranged { number < 2 ^ 64 }
    ensures begins { end ≤ result + 21 }
    ensures ends { result ≤ end }
{
    let at = write_digits(number, bytes, end);
    bytes[at - 1] = b' ';
    at - 1
}

/// A value behind a space, if there is one: where they begin.
pub(crate) fn write_spaced_value(value: Option<u64>, bytes: &mut [u8], end: usize) -> usize
    requires room { 21 ≤ end }
    requires within { end ≤ length bytes.old }
    ensures written { drop result bytes.new ≡ spaced_value value ++ drop end bytes.old }
    ensures begins { end ≤ result + 21 }
    ensures ends { result ≤ end }
    ensures ranged { IfSome value (λ v. v < 2 ^ 64) }
{
    match value {
        Some(value) => write_spaced_number(value, bytes, end),
        None => end,
    }
}

/// The letter and the address of an operation, and the value that it writes: where they begin.
pub(crate) fn write_op(op: Op, bytes: &mut [u8], end: usize) -> usize
    requires room { 42 ≤ end }
    requires within { end ≤ length bytes.old }
    ensures written { drop result bytes.new ≡ op_text op ++ drop end bytes.old }
    ensures begins { end ≤ result + 42 }
    ensures ends { result ≤ end }
    ensures ranged { IsRangedOp op }
{
    match op {
        Op::Load(word) => write_access(b'R', word, bytes, end),
        Op::Store(word, value) => {
            let end = write_spaced_number(value, bytes, end);
            write_access(b'W', word, bytes, end)
        }
        Op::Swap(word, value) => {
            let end = write_spaced_number(value, bytes, end);
            write_access(b'S', word, bytes, end)
        }
    }
}
