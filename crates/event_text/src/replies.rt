//! An answer as it is written: words and numbers, with one blank between them.

use network::LineNo;
use std::alloc::{AllocError, Global};

/// An answer. If memory for a part of it can't be allocated, `whole_text` reports that.
#[derive(Drop)]
pub struct Reply {
    text: String,
    is_cut: bool,
    /// How many words a line of the machine has.
    pub line_words: u32,
}

impl Reply {
    pub fn new(alloc: Global) -> Reply {
        Reply {
            text: String::new(alloc),
            is_cut: false,
            line_words: 1,
        }
    }

    /// Removes all words.
    pub fn clear(&mut self) {
        self.text.clear();
    }

    /// Notes that memory for a part of the answer can't be allocated.
    pub fn note_no_memory(&mut self) {
        self.is_cut = true;
    }

    /// The words, unless memory for some of them couldn't be allocated.
    pub fn whole_text(&self) -> Result<&str, AllocError> {
        if self.is_cut {
            return Err(AllocError);
        }
        Ok(self.text.as_str())
    }

    /// Adds a text as it is.
    pub fn put_text(&mut self, text: &str) {
        self.is_cut = self.text.push_str(text).is_err() || self.is_cut;
    }

    fn put_digits(&mut self, number: u128) {
        self.is_cut = write!(self.text, "{number}").is_err() || self.is_cut;
    }

    fn ends_with_blank(&self) -> bool {
        self.text.is_empty() || self.text.as_str().ends_with(' ')
    }

    /// Adds a blank, if there is a word before it.
    fn put_blank(&mut self) {
        if !self.ends_with_blank() {
            self.put_text(" ");
        }
    }

    /// Adds a word.
    pub fn put_word(&mut self, word: &str) {
        self.put_blank();
        self.put_text(word);
    }

    /// Adds the first word, if there is none.
    pub fn put_word_if_empty(&mut self, word: &str) {
        if self.text.is_empty() {
            self.put_text(word);
        }
    }

    /// Adds `; ` after what is there, if anything is.
    pub fn begin_part(&mut self) {
        if !self.text.is_empty() {
            self.put_text("; ");
        }
    }

    pub fn put_number(&mut self, number: u64) {
        self.put_blank();
        self.put_digits(u128::from(number));
    }

    /// Adds a name and its number.
    pub fn put_named_number(&mut self, name: &str, number: u64) {
        self.put_word(name);
        self.put_number(number);
    }

    /// Adds what is counted, and how often it occurred.
    pub fn put_named_count(&mut self, name: &str, count: u128) {
        self.put_word(name);
        self.put_blank();
        self.put_digits(count);
    }

    /// Adds a message's number, as `m3`.
    pub fn put_message_number(&mut self, number: u64) {
        self.put_word("m");
        self.put_digits(u128::from(number));
    }

    /// Adds a byte address.
    pub fn put_address(&mut self, byte: u64) {
        self.put_blank();
        self.is_cut = write!(self.text, "{byte:#x}").is_err() || self.is_cut;
    }

    /// Adds a line, by the address of its first word.
    pub fn put_line_address(&mut self, line: LineNo) {
        let word = line.0.wrapping_mul(u64::from(self.line_words));
        self.put_address(word.wrapping_mul(8));
    }

    /// Adds a line, or `none`.
    pub fn put_line_or_none(&mut self, line: Option<LineNo>) {
        match line {
            Some(line) => self.put_line_address(line),
            None => self.put_word("none"),
        }
    }

    /// Adds lines, or `none`.
    pub fn put_lines(&mut self, lines: &[LineNo]) {
        for line in lines {
            self.put_line_address(*line);
        }
        self.put_word_if_empty("none");
    }
}
