//! Lines with the answers that came, written after them.

use crate::replies::Reply;
use crate::texts::{line_without_comment, text_after_prefix};
use crate::turned::{is_expected_answer, put_words_in_turn, split_end_mark};
use std::alloc::{AllocError, Global};

/// The answers to a line.
#[derive(Drop)]
pub(crate) struct Written {
    /// The answer of the first turn.
    first: String,
    /// The answers of all turns so far, as one text that goes on in each turn.
    by_turn: Option<Reply>,
    /// Whether an answer came that differs from the one in the text.
    is_new: bool,
}

/// A text that is the first answer in turn 0, and the second one in turn 1 if the words that differ go on by one.
fn answer_by_turn(alloc: Global, first: &str, second: &str) -> Reply {
    let mut text = Reply::new(alloc);
    let mut others = second.split_ascii_whitespace();
    for word in first.split_ascii_whitespace() {
        let (front, end) = split_end_mark(word);
        text.put_word(front);
        if others.next() != Some(word) {
            text.put_text("+@");
        }
        text.put_text(end);
    }
    text
}

impl Written {
    pub(crate) fn new(alloc: Global, came: &str, is_right: bool) -> Result<Written, AllocError> {
        Ok(Written {
            first: String::from_str(alloc, came)?,
            by_turn: None,
            is_new: !is_right,
        })
    }

    /// Takes in the answer of a further turn; `told` is for a text of that turn.
    pub(crate) fn take_next_answer(
        &mut self,
        alloc: Global,
        came: &str,
        turn: Option<u64>,
        is_right: bool,
        told: &mut Reply,
    ) -> Result<(), AllocError> {
        self.is_new = self.is_new || !is_right;
        if turn == Some(1) && came != self.first.as_str() {
            self.by_turn = Some(answer_by_turn(alloc, self.first.as_str(), came));
        }
        let Some(text) = &self.by_turn else {
            return Ok(());
        };
        put_words_in_turn(text.whole_text()?, turn, told);
        if !is_expected_answer(told.whole_text()?, came) {
            self.by_turn = None;
        }
        Ok(())
    }

    /// Writes the line with the answer that came, before its comment; a line that had it already doesn't change.
    pub(crate) fn put_line(&self, line: &str, told: &mut Reply) -> Result<(), AllocError> {
        if !self.is_new {
            told.put_text(line);
            return Ok(());
        }
        let said = line_without_comment(line);
        match said.split_once(':') {
            Some((call, _)) => told.put_text(call),
            None => {
                told.put_text(said.trim_end());
                told.put_text(" ");
            }
        }
        told.put_text(": ");
        match &self.by_turn {
            Some(text) => told.put_text(text.whole_text()?),
            None => told.put_text(self.first.as_str()),
        }
        put_comment(said, text_after_prefix(line, said), told);
        Ok(())
    }
}

/// Writes a comment after the blanks that precede it, or after one blank.
fn put_comment(said: &str, comment: &str, told: &mut Reply) {
    if comment.is_empty() {
        return;
    }
    let blanks = text_after_prefix(said, said.trim_end());
    told.put_text(if blanks.is_empty() { " " } else { blanks });
    told.put_text(comment);
}
