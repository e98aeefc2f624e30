//! Addresses in hexadecimal, each appended to the text so far. If allocation fails, part of it may be in the text.

ghost use Rattle.std.specs.Prelude.{◌≡◌, ◌+◌, ◌≤◌, ◌<◌, ◌++◌, drop, length, take, OnOk};
ghost use Rattle.report_lines.specs.Hexadecimal.{address_text, hex_digits, hex_glyph};

use physiological_order::WordAddr;
use std::alloc::AllocError;

// The digit of a number below 16.
fn hex_glyph(digit: u8) -> u8
    requires { digit < 16 }
    ensures { result ≡ hex_glyph digit }
{
    if digit < 10 { b'0' + digit } else { 87 + digit }
}

// A number in at most so many hexadecimal digits, the last of them before `end`: where they begin.
fn write_hex(places: usize, number: u64, bytes: &mut [u8], end: usize) -> usize
    requires room { places ≤ end }
    requires within { end ≤ length bytes.old }
    ensures written { drop result bytes.new ≡ hex_digits places number ++ drop end bytes.old }
    ensures front { take result bytes.new ≡ take result bytes.old }
    ensures begins { end ≤ result + places }
    ensures ends { result ≤ end }
{
    if places == 0 {
        return end;
    }
    bytes[end - 1] = hex_glyph((number % 16) as u8);
    if number < 16 {
        return end - 1;
    }
    write_hex(places - 1, number / 16, bytes, end - 1)
}

/// The byte address of a word, as `put_address` puts it, with its last digit before `end`: where it begins. The bytes
/// in front stay.
#[tactic(auto, unfolding(crate::specs::Hexadecimal::address_text))]
pub fn write_address(word: WordAddr, bytes: &mut [u8], end: usize) -> usize
    requires room { 18 ≤ end }
    requires within { end ≤ length bytes.old }
    ensures written { drop result bytes.new ≡ address_text word ++ drop end bytes.old }
    ensures front { take result bytes.new ≡ take result bytes.old }
    ensures begins { end ≤ result + 18 }
    ensures ends { result ≤ end }
{
    let at = write_hex(16, word.byte(), bytes, end);
    bytes[at - 1] = b'x';
    bytes[at - 2] = b'0';
    at - 2
}

/// The byte address of a word: `0x` and lower-case hexadecimal digits without leading zeros.
pub fn put_address(out: &mut Vec<u8>, word: WordAddr) -> Result<(), AllocError>
    ensures { OnOk result (out.new.items ≡ out.old.items ++ address_text word) }
{
    let mut bytes = [0; 18];
    let at = write_address(word, &mut bytes, 18);
    out.extend_from_slice(&bytes[at..])
}
