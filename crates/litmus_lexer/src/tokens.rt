//! The pieces of a text: words, signs and line ends.

ghost use Rattle.std.specs.Prelude.{◌≡◌, ◌<◌, ◌≤◌, [], ◌∷◌, length, IfSome, MatchOption};
ghost use Rattle.std.specs.List.{prefix_len};
ghost use Rattle.litmus_lexer.specs.Pieces.{is_letter, is_slash, pieces_of};
ghost use Rattle.litmus_lexer.specs.TokenPieces.{piece_of};

use crate::bytes::count_leading_blanks;

/// One piece of a text.
#[derive(Clone, Copy, Debug)]
pub enum Token<'a> {
    /// A name, a number, a keyword or a mnemonic, or a run of slashes.
    Word(&'a [u8]),
    Sign(u8),
    LineEnd,
}

fn is_word_byte(b: u8) -> bool
    ensures { result ≡ is_letter b }
{
    matches!(b, b'0'..=b'9' | b'A'..=b'Z' | b'a'..=b'z' | b'_' | b'.' | b'~')
}

fn is_slash(b: u8) -> bool
    ensures { result ≡ is_slash b }
{
    b == b'/' || b == b'\\'
}

fn count_leading_word_bytes(bytes: &[u8]) -> usize
    ensures count { result ≡ prefix_len is_letter bytes.now }
    ensures within { result ≤ length bytes.now }
{
    bytes.iter().take_while(|b| is_word_byte(**b)).count()
}

fn count_leading_slashes(bytes: &[u8]) -> usize
    ensures count { result ≡ prefix_len is_slash bytes.now }
    ensures within { result ≤ length bytes.now }
{
    bytes.iter().take_while(|b| is_slash(**b)).count()
}

/// The first piece of a text, and what follows it.
pub fn next_token(bytes: &[u8]) -> Option<(Token<'_>, &[u8])>
    ensures pieces { MatchOption result (pieces_of bytes.now ≡ [])
        (λ r. pieces_of bytes.now ≡ piece_of r.0 ∷ pieces_of r.1.now) }
    ensures shorter { IfSome result (λ r. length r.1.now < length bytes.now) }
{
    let (_, bytes) = bytes.split_at(count_leading_blanks(bytes));
    let (&first, after) = bytes.split_first()?;
    if first == b'\n' {
        return Some((Token::LineEnd, after));
    }
    let len = if is_word_byte(first) {
        count_leading_word_bytes(bytes)
    } else if is_slash(first) {
        count_leading_slashes(bytes)
    } else {
        return Some((Token::Sign(first), after));
    };
    let (word, rest) = bytes.split_at(len);
    Some((Token::Word(word), rest))
}
