//! Words of what is repeated: `N+@`, `0xA+@` and `mN+@` stand for a number, an address and a message in each turn;
//! `N+5@` and `N-5@` go on by five.

use crate::causes::Cause;
use crate::replies::Reply;

/// What a word with a number is.
#[derive(Clone, Copy, PartialEq, Eq)]
pub(crate) enum Kind {
    Number,
    /// A byte address.
    Address,
    Message,
}

/// Whether a text is digits, hexadecimal ones in lower case.
pub(crate) fn is_digits(text: &str, is_hexadecimal: bool) -> bool {
    for byte in text.as_bytes() {
        let is_letter = is_hexadecimal && matches!(*byte, b'a'..=b'f');
        if !is_letter && !byte.is_ascii_digit() {
            return false;
        }
    }
    !text.is_empty()
}

/// The number that decimal digits stand for, if it fits 64 bits.
pub(crate) fn decimal_number(word: &str) -> Option<u64> {
    if !is_digits(word, false) {
        return None;
    }
    word.parse().ok()
}

/// The number of 1 to 16 hexadecimal digits.
fn hexadecimal_number(digits: &str) -> Option<u64> {
    if digits.len() > 16 || !is_digits(digits, true) {
        return None;
    }
    u64::from_str_radix(digits, 16).ok()
}

/// The kind and the number of a word that has one: `3`, `0x18` or `m3`.
fn kind_and_number(word: &str) -> Option<(Kind, u64)> {
    if let Some(digits) = word.strip_prefix("m") {
        return Some((Kind::Message, decimal_number(digits)?));
    }
    match word.strip_prefix("0x") {
        Some(digits) => Some((Kind::Address, hexadecimal_number(digits)?)),
        None => Some((Kind::Number, decimal_number(word)?)),
    }
}

/// A step of what goes on in each turn.
#[derive(Clone, Copy)]
struct Step {
    is_up: bool,
    by: u64,
}

/// A number after this many turns of a step; nothing if that is no number of 64 bits.
fn number_after_turns(kind: Kind, number: u64, turn: u64, step: Step) -> Option<u64> {
    let each = if kind == Kind::Address { 8 } else { 1 };
    let far = turn.checked_mul(step.by.checked_mul(each)?)?;
    if step.is_up {
        number.checked_add(far)
    } else {
        number.checked_sub(far)
    }
}

/// The beginning of a word that goes on by a step, and the step: `+@`, `-@`, `+5@` or `-5@`.
fn split_turn_step(word: &str) -> Option<(&str, Step)> {
    let word = word.strip_suffix("@")?;
    let (first, by, is_up) = match word.split_once('+') {
        Some((first, by)) => (first, by, true),
        None => {
            let (first, by) = word.split_once('-')?;
            (first, by, false)
        }
    };
    let by = if by.is_empty() {
        1
    } else {
        decimal_number(by)?
    };
    Some((first, Step { is_up, by }))
}

/// The kind and the number of a word after this many turns; outside of a repetition, those of the word itself.
pub(crate) fn kind_and_number_in_turn(
    word: &str,
    turn: Option<u64>,
) -> Result<Option<(Kind, u64)>, Cause> {
    let (Some(turn), Some((first, step))) = (turn, split_turn_step(word)) else {
        return Ok(kind_and_number(word));
    };
    let Some((kind, number)) = kind_and_number(first) else {
        return Ok(None);
    };
    match number_after_turns(kind, number, turn, step) {
        Some(number) => Ok(Some((kind, number))),
        None if step.is_up => Err(Cause::TooLarge),
        None => Err(Cause::BelowZero),
    }
}

/// A word without the `;` or `,` at its end, and that end.
pub(crate) fn split_end_mark(word: &str) -> (&str, &str) {
    let rest = word.strip_suffix(";").or(word.strip_suffix(","));
    let rest = rest.unwrap_or(word);
    (rest, word.strip_prefix(rest).unwrap_or(""))
}

fn put_number_by_kind(kind: Kind, number: u64, out: &mut Reply) {
    match kind {
        Kind::Number => out.put_number(number),
        Kind::Address => out.put_address(number),
        Kind::Message => out.put_message_number(number),
    }
}

fn put_word_in_turn(word: &str, turn: Option<u64>, out: &mut Reply) {
    let (word, end) = split_end_mark(word);
    match kind_and_number_in_turn(word, turn) {
        Ok(Some((kind, number))) if word.ends_with('@') => put_number_by_kind(kind, number, out),
        _ => out.put_word(word),
    }
    out.put_text(end);
}

/// The words of a text as they are in a turn.
pub(crate) fn put_words_in_turn(text: &str, turn: Option<u64>, out: &mut Reply) {
    out.clear();
    for word in text.split_ascii_whitespace() {
        put_word_in_turn(word, turn, out);
    }
}

/// Whether an answer is the expected one, or begins with the words before the word `..`.
pub(crate) fn is_expected_answer(wanted: &str, came: &str) -> bool {
    if wanted == came {
        return true;
    }
    match wanted.strip_suffix("..") {
        Some(front) if front.is_empty() || front.ends_with(' ') => {
            came.starts_with(front) || came == front.trim_end()
        }
        _ => false,
    }
}
