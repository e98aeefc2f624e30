//! The lines of a text, and its examples.

use crate::turns::Cursor;
use std::alloc::{AllocError, Global};

/// A text as its lines.
#[derive(Drop)]
pub struct Text<'a> {
    lines: Vec<&'a str>,
}

/// An example: its lines, and how many lines come before it.
#[derive(Clone, Copy)]
pub struct Example<'a> {
    pub(crate) lines: &'a [&'a str],
    pub(crate) before: usize,
}

/// What a line says, without its comment.
pub(crate) fn line_without_comment(line: &str) -> &str {
    match line.split_once('#') {
        Some((said, _)) => said,
        None => line,
    }
}

/// The first word of a text; an empty one if there is none.
pub(crate) fn first_word(text: &str) -> &str {
    text.split_ascii_whitespace().next().unwrap_or("")
}

/// What follows a beginning of a text.
pub fn text_after_prefix<'a>(text: &'a str, beginning: &str) -> &'a str {
    text.strip_prefix(beginning).unwrap_or("")
}

fn is_example_heading(line: &str) -> bool {
    first_word(line_without_comment(line)) == "example"
}

impl<'a> Text<'a> {
    pub fn new(alloc: Global, content: &'a str) -> Result<Text<'a>, AllocError> {
        let mut lines = Vec::new(alloc);
        for line in content.lines() {
            lines.push(line)?;
        }
        Ok(Text { lines })
    }

    pub fn lines(&self) -> &[&'a str] {
        &self.lines
    }

    /// The example that begins at an index, or what comes before the first one; nothing after the last line.
    pub fn example_at(&self, from: usize) -> Option<Example<'_>> {
        let lines = self.lines.get(from..)?;
        let (_, rest) = lines.split_first()?;
        let behind = rest
            .iter()
            .take_while(|line| !is_example_heading(line))
            .count();
        let lines = lines.get(..behind.saturating_add(1))?;
        Some(Example {
            lines,
            before: from,
        })
    }
}

impl<'a> Example<'a> {
    /// The index of the line after it.
    pub fn end_index(&self) -> usize {
        self.before.saturating_add(self.lines.len())
    }

    /// Whether it begins with a line `example`; otherwise it is what comes before the first one.
    pub fn has_heading(&self) -> bool {
        match self.lines.first() {
            Some(line) => is_example_heading(line),
            None => false,
        }
    }

    /// Its lines in the order in which they are played.
    pub fn cursor(&self) -> Cursor<'a> {
        Cursor::new(*self)
    }
}
