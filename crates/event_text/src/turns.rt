//! The lines of an example in the order in which they are played: what is repeated comes as often as it says.

use crate::causes::{Cause, Fault};
use crate::texts::{Example, first_word, line_without_comment, text_after_prefix};
use crate::turned::decimal_number;
use crate::words::Words;
use std::str::Split;

/// A line as it is played once.
#[derive(Clone, Copy)]
pub struct Turn<'a> {
    /// The number of the line in its text, from 1.
    pub line: usize,
    pub call: &'a str,
    /// The expected answer.
    pub wanted: Option<&'a str>,
    /// How many turns of a repetition came before.
    pub turn: Option<u64>,
}

impl<'a> Turn<'a> {
    /// The words of its call, for a machine with this many words in a line.
    pub fn call_words(&self, line_words: u32) -> Words<'a> {
        Words::new(self.call, self.turn, line_words)
    }

    /// The name of its call.
    pub fn call_name(&self) -> &'a str {
        first_word(self.call)
    }

    /// The texts between the `;` after the call's name.
    pub fn call_parts(&self) -> Split<'a, char> {
        text_after_prefix(self.call, self.call_name()).split(';')
    }
}

/// What is repeated: from which index of the lines on, in which turn, and how many turns there are.
#[derive(Clone, Copy)]
struct Repeated {
    from: usize,
    turn: u64,
    turns: u64,
    /// Whether one line is repeated, and no block.
    is_line: bool,
    has_call: bool,
}

/// Goes through an example's lines as they are played.
#[derive(Clone, Copy)]
pub struct Cursor<'a> {
    example: Example<'a>,
    at: usize,
    has_begun: bool,
    repeated: Option<Repeated>,
}

impl<'a> Cursor<'a> {
    pub(crate) fn new(example: Example<'a>) -> Cursor<'a> {
        Cursor {
            example,
            at: 0,
            has_begun: false,
            repeated: None,
        }
    }

    /// The next line, or why it can't be read; nothing after the last one.
    pub fn next_turn(&mut self) -> Result<Option<Turn<'a>>, Fault> {
        for _ in 0..u64::MAX {
            let Some(line) = self.example.lines.get(self.at) else {
                return self.check_repeat_ended();
            };
            match self.read_line(line_without_comment(line)) {
                Ok(None) => {}
                Ok(turn) => return Ok(turn),
                Err(cause) => return Err(self.fault_of_line(self.at, cause)),
            }
        }
        Ok(None)
    }

    /// The fault of the line at an index.
    fn fault_of_line(&self, at: usize, cause: Cause) -> Fault {
        Fault {
            line: self.line_number(at),
            cause,
        }
    }

    fn line_number(&self, at: usize) -> usize {
        self.example.before.saturating_add(at).saturating_add(1)
    }

    fn check_repeat_ended(&self) -> Result<Option<Turn<'a>>, Fault> {
        match self.repeated {
            Some(block) => Err(self.fault_of_line(block.from.saturating_sub(1), Cause::NoEnd)),
            None => Ok(None),
        }
    }

    /// What a line is: a call, or nothing to play.
    fn read_line(&mut self, said: &'a str) -> Result<Option<Turn<'a>>, Cause> {
        let mut words = said.split_ascii_whitespace();
        match words.next() {
            None => Ok(self.skip_line()),
            Some("example") => match words.next() {
                Some(_) => Ok(self.skip_line()),
                None => Err(Cause::NoTitle),
            },
            Some(_) if !self.example.has_heading() => Err(Cause::NoExample),
            Some("repeat") => self.read_repeat_line(said),
            Some("end") => self.read_end_line(words.next().is_some()),
            Some(_) => self.read_call_line(said),
        }
    }

    /// Goes on to the next line, with nothing to play.
    fn skip_line(&mut self) -> Option<Turn<'a>> {
        self.at = self.at.saturating_add(1);
        None
    }

    /// A line that begins with `repeat`.
    fn read_repeat_line(&mut self, said: &'a str) -> Result<Option<Turn<'a>>, Cause> {
        let (turns, call) = read_repeat_count(said)?;
        match self.repeated {
            Some(line) if line.is_line => {}
            Some(_) => return Err(Cause::Inside),
            None => self.begin_repetition(turns, !call.is_empty()),
        }
        if call.is_empty() {
            return Ok(self.skip_line());
        }
        let turn = self.read_turn(call)?;
        self.go_to_next_turn();
        Ok(Some(turn))
    }

    fn begin_repetition(&mut self, turns: u64, is_line: bool) {
        let block = self.at.saturating_add(1);
        self.repeated = Some(Repeated {
            from: if is_line { self.at } else { block },
            turn: 0,
            turns,
            is_line,
            has_call: is_line,
        });
    }

    /// A line that begins with `end`.
    fn read_end_line(&mut self, has_more: bool) -> Result<Option<Turn<'a>>, Cause> {
        match self.repeated {
            None => Err(Cause::NoRepeat),
            Some(_) if has_more => Err(Cause::MoreWords),
            Some(block) if !block.has_call => Err(Cause::Empty),
            Some(_) => {
                self.go_to_next_turn();
                Ok(None)
            }
        }
    }

    /// Ends a turn: the next one begins, or the lines after the repetition.
    fn go_to_next_turn(&mut self) {
        let Some(repeated) = self.repeated else {
            return;
        };
        let turn = repeated.turn.saturating_add(1);
        if turn < repeated.turns {
            self.repeated = Some(Repeated { turn, ..repeated });
            self.at = repeated.from;
        } else {
            self.repeated = None;
            self.at = self.at.saturating_add(1);
        }
    }

    /// A line with a call.
    fn read_call_line(&mut self, said: &'a str) -> Result<Option<Turn<'a>>, Cause> {
        let turn = self.read_turn(said)?;
        if let Some(block) = self.repeated {
            self.repeated = Some(Repeated {
                has_call: true,
                ..block
            });
        }
        self.at = self.at.saturating_add(1);
        Ok(Some(turn))
    }

    /// A call and its expected answer.
    fn read_turn(&mut self, said: &'a str) -> Result<Turn<'a>, Cause> {
        let (call, wanted) = split_call_and_answer(said)?;
        if !self.has_begun && !may_begin_example(call) {
            return Err(Cause::Beginning);
        }
        self.has_begun = true;
        Ok(Turn {
            line: self.line_number(self.at),
            call,
            wanted,
            turn: self.repeated.map(|repeated| repeated.turn),
        })
    }
}

/// Whether an example may begin with this call.
fn may_begin_example(call: &str) -> bool {
    matches!(first_word(call), "machine" | "seats" | "numbers")
}

/// How many turns a line with `repeat` has, and what follows that.
fn read_repeat_count(said: &str) -> Result<(u64, &str), Cause> {
    let rest = text_after_prefix(said.trim(), "repeat").trim();
    let number = first_word(rest);
    match decimal_number(number) {
        Some(0) => Err(Cause::Turns),
        Some(turns) => Ok((turns, text_after_prefix(rest, number).trim())),
        None => Err(Cause::Number),
    }
}

fn ends_with_blank(text: &str) -> bool {
    text.is_empty() || text.ends_with(' ') || text.ends_with('\t')
}

fn begins_with_blank(text: &str) -> bool {
    text.is_empty() || text.starts_with(' ') || text.starts_with('\t')
}

/// A call, and the answer after the word `:`, if there is one.
fn split_call_and_answer(said: &str) -> Result<(&str, Option<&str>), Cause> {
    match said.split_once(':') {
        Some((call, wanted)) if ends_with_blank(call) && begins_with_blank(wanted) => {
            if call.trim().is_empty() {
                return Err(Cause::NoCall);
            }
            if wanted.trim().is_empty() {
                return Err(Cause::NoAnswer);
            }
            Ok((call.trim(), Some(wanted.trim())))
        }
        _ => Ok((said.trim(), None)),
    }
}
