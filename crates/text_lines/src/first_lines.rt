//! The first line of a text.

ghost use Rattle.std.specs.Prelude.{◌≡◌, ◌+◌, ◌≤◌, ◌<◌, ◌==◌, length, map};
ghost use Rattle.std.specs.List.{prefix_len};
ghost use lib.Lanes.{mask_l, chunk};
ghost use Rattle.text_lines.specs.Lines.{is_within_line, before_line_feed, behind_line_feed};

use std::simd::prelude::*;

/// How many bytes are looked at together.
const LANES: usize = 16;

/// Which of the bytes from `at` on, as many as are looked at together, are line feeds: a bit for each.
#[inline(always)]
fn line_feed_mask(text: &[u8], at: usize) -> u64
    requires { at + 16 ≤ length text.now }
    ensures { result ≡ mask_l (map (λ b. b == 10) (chunk at 16 text.now)) }
{
    let bytes = u8x16::from_slice(&text[at..]);
    bytes.simd_eq(u8x16::splat(b'\n')).to_bitmask()
}

fn line_length_by_bytes(bytes: &[u8]) -> usize
    ensures count { result ≡ prefix_len is_within_line bytes.now }
    ensures within { result ≤ length bytes.now }
{
    bytes.iter().take_while(|b| **b != b'\n').count()
}

/// How many bytes come before the first line feed: all, if there is none.
pub fn line_length(text: &[u8]) -> usize
    ensures count { result ≡ prefix_len is_within_line text.now }
    ensures within { result ≤ length text.now }
{
    let mut at = 0;
    while at + LANES <= text.len() {
        let mask = line_feed_mask(text, at);
        if mask != 0 {
            return at + mask.trailing_zeros() as usize;
        }
        at += LANES;
    }
    at + line_length_by_bytes(&text[at..])
}

/// The first line of a text without its line feed, and what follows it.
pub fn split_line(text: &[u8]) -> (&[u8], &[u8])
    ensures line { result.0.now ≡ before_line_feed text.now }
    ensures rest { result.1.now ≡ behind_line_feed text.now }
    ensures shorter { 0 < length text.now → length result.1.now < length text.now }
{
    let (line, rest) = text.split_at(line_length(text));
    match rest {
        [_, rest @ ..] => (line, rest),
        [] => (line, rest),
    }
}
