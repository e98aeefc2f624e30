//! The first line of a text and its header lines, byte by byte.

ghost use Rattle.std.specs.Prelude.{◌≡◌, ◌≤◌, ℕ, List, length, option_map, MatchOption, ◌==◌, not};
ghost use Rattle.std.specs.List.{prefix_len};
ghost use Rattle.litmus_lexer.specs.FirstLines.{IsTitle, is_title_byte, title_of, behind_riscv, is_header_line};
ghost use Rattle.litmus_lexer.specs.FirstLines.{is_quoted, is_setting, begins_block};

use crate::bytes::{count_leading_blanks, count_leading_name_bytes};
use crate::limits::LONGEST_TITLE;
use crate::signs::{EQUALS, OPENING_BRACE};

fn is_title_byte(b: u8) -> bool
    ensures { result ≡ is_title_byte b }
{
    matches!(b, b'0'..=b'9' | b'A'..=b'Z' | b'a'..=b'z' | b'_' | b'+' | b'.' | b'-' | b'[' | b']')
}

fn count_leading_title_bytes(bytes: &[u8]) -> usize
    ensures count { result ≡ prefix_len is_title_byte bytes.now }
    ensures within { result ≤ length bytes.now }
{
    bytes.iter().take_while(|b| is_title_byte(**b)).count()
}

/// How many bytes stand before the first `"`.
fn count_bytes_before_quote(bytes: &[u8]) -> usize
    ensures count { result ≡ prefix_len (λ b. not (b == 34)) bytes.now }
    ensures within { result ≤ length bytes.now }
{
    bytes.iter().take_while(|b| **b != b'"').count()
}

/// What follows the word `RISCV`, if the line begins with it.
fn after_riscv(line: &[u8]) -> Option<&[u8]>
    ensures { option_map (λ r. r.now) result ≡ behind_riscv line.now }
{
    match line {
        [b'R', b'I', b'S', b'C', b'V', rest @ ..] => Some(rest),
        _ => None,
    }
}

#[tactic(auto, unfolding(crate::specs::FirstLines::title_of))]
fn title_of_line(line: &[u8]) -> Option<&[u8]>
    ensures { option_map (λ r. r.now) result ≡ title_of line.now }
{
    let (_, line) = line.split_at(count_leading_blanks(line));
    let line = after_riscv(line)?;
    let gap = count_leading_blanks(line);
    if gap == 0 {
        return None;
    }
    let (_, line) = line.split_at(gap);
    let (name, rest) = line.split_at(count_leading_title_bytes(line));
    if name.is_empty() || name.len() > LONGEST_TITLE || count_leading_blanks(rest) != rest.len() {
        return None;
    }
    Some(name)
}

/// The name in the first line, if that line is `RISCV`, blanks and a name of 1 to 128 letters,
/// digits and `_ + . - [ ]`.
pub fn read_title(line: &[u8]) -> Option<&[u8]>
    ensures title { MatchOption result ((name : List ℕ) → IsTitle line.now name → ⊥)
        (λ name. IsTitle line.now name.now) }
    ensures exact { option_map (λ r. r.now) result ≡ title_of line.now }
{
    title_of_line(line)
}

/// A string between two `"` with no other `"`, and blanks after it.
fn is_quoted_string(text: &[u8]) -> bool
    ensures { result ≡ is_quoted text.now }
{
    let Some((&b'"', text)) = text.split_first() else {
        return false;
    };
    let (_, rest) = text.split_at(count_bytes_before_quote(text));
    match rest {
        [_, rest @ ..] => count_leading_blanks(rest) == rest.len(),
        [] => false,
    }
}

/// A letter followed by letters, digits and `_`, then blanks, then `=`.
fn is_key_value_line(text: &[u8]) -> bool
    ensures { result ≡ is_setting text.now }
{
    if !matches!(text, [b'A'..=b'Z' | b'a'..=b'z', ..]) {
        return false;
    }
    let (_, rest) = text.split_at(count_leading_name_bytes(text));
    let (_, rest) = rest.split_at(count_leading_blanks(rest));
    matches!(rest, [EQUALS, ..])
}

/// Whether a line is a header line: blank, a string between two `"`, or `key=value`.
pub fn is_header_line(line: &[u8]) -> bool
    ensures { result ≡ is_header_line line.now }
{
    let (_, text) = line.split_at(count_leading_blanks(line));
    text.is_empty() || is_quoted_string(text) || is_key_value_line(text)
}

/// Whether a line begins the initial block: its first byte after blanks is `{`.
pub fn begins_block(line: &[u8]) -> bool
    ensures { result ≡ begins_block line.now }
{
    let (_, text) = line.split_at(count_leading_blanks(line));
    matches!(text, [OPENING_BRACE, ..])
}
