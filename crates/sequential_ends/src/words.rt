//! The words of a memory in a vector, by their numbers; those behind it are 0.

ghost use Rattle.std.specs.Prelude.{◌≡◌, ◌≤◌, ℕ, length, IfOk, OnOk};
ghost use Rattle.sequential_machine.specs.Turns.{word_in, with_word_in, words_after, value_for};
ghost use Rattle.sequential_machine.specs.Turns.{point_opened};
ghost use Rattle.litmus_reader.specs.TestViews.{test_of};

use litmus_reader::Test;
use physiological_order::{Op, WordAddr};
use std::alloc::{AllocError, Global};

/// The value of a word.
fn word_in(words: &[u64], address: WordAddr) -> u64
    ensures { result ≡ word_in words.now address }
{
    match words.get(address.word() as usize) {
        Some(value) => *value,
        None => 0,
    }
}

// Zeros behind the words, until there are so many words.
fn extend_words(words: &mut Vec<u64>, count: usize) -> Result<(), AllocError>
    requires { length words.old.items ≤ count }
    ensures count { OnOk result (length words.new.items ≡ count) }
    ensures same { OnOk result ((value : ℕ) → with_word_in words.new.items count value
        ≡ with_word_in words.old.items count value) }
{
    while words.len() < count {
        words.push(0)?;
    }
    Ok(())
}

/// Sets a word.
fn set_word(words: &mut Vec<u64>, address: WordAddr, value: u64) -> Result<(), AllocError>
    ensures { OnOk result (words.new.items ≡ with_word_in words.old.items address value) }
{
    let at = address.word() as usize;
    if at < words.len() {
        words[at] = value;
        return Ok(());
    }
    extend_words(words, at)?;
    words.push(value)?;
    Ok(())
}

/// The words after an operation, and what it receives.
pub(crate) fn words_after_op(
    alloc: Global,
    words: &[u64],
    op: Op,
) -> Result<(Vec<u64>, u64), AllocError>
    ensures { IfOk result (λ r. (r.0.items ≡ words_after words.now op)
        × (r.1 ≡ value_for words.now op)) }
{
    let mut after = Vec::from_slice(alloc, words)?;
    match op {
        Op::Load(address) => Ok((after, word_in(words, address))),
        Op::Store(address, value) => {
            set_word(&mut after, address, value)?;
            Ok((after, 0))
        }
        Op::Swap(address, value) => {
            set_word(&mut after, address, value)?;
            Ok((after, word_in(words, address)))
        }
    }
}

/// The words as the test opens them.
pub(crate) fn opening_words(alloc: Global, test: &Test) -> Result<Vec<u64>, AllocError>
    ensures { IfOk result (λ words. words.items ≡ (point_opened (test_of test.now)).words) }
{
    let mut words = Vec::new(alloc);
    let mut entries = test.opening()?.words()?;
    while let Some(entry) = entries.pop() {
        set_word(&mut words, entry.0, entry.1)?;
    }
    Ok(words)
}
