//! How far a text can be read: up to its end, or up to the line of its first bad byte.

ghost use Rattle.std.specs.Prelude.{◌≡◌, ◌≢◌, ◌≤◌, length};
ghost use Rattle.std.specs.List.{prefix_len, suffix_len};
ghost use Rattle.text_lines.specs.Lines.{is_within_line};
ghost use Rattle.litmus_parser.specs.Extents.{is_allowed, line_feeds, inner_line_feeds, reach};

use litmus_lexer::{Kind, LitmusError, MOST_BYTES};

fn is_allowed_byte(b: u8) -> bool
    ensures { result ≡ is_allowed b }
{
    matches!(b, b' '..=b'~' | b'\t' | b'\n' | b'\r')
}

fn count_leading_allowed_bytes(text: &[u8]) -> usize
    ensures count { result ≡ prefix_len is_allowed text.now }
    ensures within { result ≤ length text.now }
{
    text.iter().take_while(|b| is_allowed_byte(**b)).count()
}

fn count_line_feeds(text: &[u8]) -> usize
    ensures count { result ≡ line_feeds text.now }
    ensures within { result ≤ length text.now }
{
    text.iter().filter(|b| **b == b'\n').count()
}

/// How many line feeds begin a further line: all but one that is the last byte.
fn count_inner_line_feeds(text: &[u8]) -> usize
    ensures count { result ≡ inner_line_feeds text.now }
    ensures within { result ≤ length text.now }
{
    let (inner, _) = text.split_at(text.len().saturating_sub(1));
    count_line_feeds(inner)
}

/// How many bytes come after the last line feed.
fn last_line_length(text: &[u8]) -> usize
    ensures count { result ≡ suffix_len is_within_line text.now }
    ensures within { result ≤ length text.now }
{
    text.iter().rev().take_while(|b| **b != b'\n').count()
}

/// The lines before the one of the first bad byte, or the whole text where each byte is allowed;
/// and the fault of a text that would have to go on after them.
pub fn readable_lines(text: &[u8]) -> (&[u8], LitmusError)
    requires { length text.now ≤ MOST_BYTES }
    ensures text { result.0.now ≡ (reach text.now).0 }
    ensures fault { result.1 ≡ (reach text.now).1 }
    ensures kind { result.1.kind ≢ Kind.NoMemory }
{
    let count = count_leading_allowed_bytes(text);
    if count == text.len() {
        return (
            text,
            LitmusError {
                line: 1 + count_inner_line_feeds(text),
                kind: Kind::CutShort,
            },
        );
    }
    let (good, _) = text.split_at(count);
    let (lines, _) = good.split_at(good.len() - last_line_length(good));
    (
        lines,
        LitmusError {
            line: 1 + count_line_feeds(good),
            kind: Kind::BadByte,
        },
    )
}
