//! What the player reports of a text while it plays it: answers that differ from the expected ones, and how many there
//! were.

use crate::command_line::Manner;
use crate::replies::Reply;
use crate::turned::{is_expected_answer, put_words_in_turn};
use crate::turns::Turn;
use crate::written::Written;
use std::alloc::{AllocError, Global};
use std::io;
use std::io::Write;

/// An answer of the first time that an example is played, with the number of its line.
#[derive(Drop)]
pub struct First {
    pub line: usize,
    pub answer: String,
}

/// What the player reports of a text.
#[derive(Drop)]
pub struct Page<'a> {
    name: &'a str,
    alloc: Global,
    /// How the player plays the text.
    pub how: Manner,
    /// The answers to the example that is played, kept if later ways are compared with them.
    pub firsts: Vec<First>,
    examples: u64,
    answers: u64,
    wrong: u64,
    /// How many examples can't be read.
    unreadable: u64,
    /// The lines of the example that is played to which a wrong answer came, and in how many turns.
    wrong_turns: Vec<(usize, u64)>,
    /// The faults of a text that is written itself.
    pub(crate) faults: String,
    /// By line, the answers that came, to be written after it.
    written: Vec<Option<Written>>,
    told: Reply,
}

impl<'a> Page<'a> {
    pub(crate) fn new(
        alloc: Global,
        name: &'a str,
        lines: usize,
        how: Manner,
    ) -> Result<Page<'a>, AllocError> {
        let mut written = Vec::new(alloc);
        if how.prints {
            for _ in 0..lines {
                written.push(None)?;
            }
        }
        Ok(Page {
            name,
            alloc,
            how,
            firsts: Vec::new(alloc),
            examples: 0,
            answers: 0,
            wrong: 0,
            unreadable: 0,
            wrong_turns: Vec::new(alloc),
            faults: String::new(alloc),
            written,
            told: Reply::new(alloc),
        })
    }

    /// An example begins.
    pub(crate) fn begin_example(&mut self) {
        self.examples = self.examples.saturating_add(1);
        self.firsts.clear();
        self.wrong_turns.clear();
    }

    /// An example ends: reports in how many turns a wrong answer came to each repeated line, if that was more than
    /// one.
    pub(crate) fn end_example<W: Write + Drop>(&self, out: &mut W) -> io::Result<()> {
        let name = self.name;
        for (line, turns) in &self.wrong_turns {
            if *turns > 1 {
                writeln!(out, "{name}:{line}: wrong in {turns} turns")?;
            }
        }
        Ok(())
    }

    /// The exit status that the text asks for.
    pub(crate) fn exit_status(&self) -> u8 {
        if self.unreadable > 0 {
            3
        } else {
            u8::from(self.wrong > 0 && !self.how.prints)
        }
    }

    /// Reports why a line can't be read.
    pub(crate) fn report_fault<W: Write + Drop>(
        &mut self,
        line: usize,
        cause: &str,
        out: &mut W,
    ) -> io::Result<()> {
        self.unreadable = self.unreadable.saturating_add(1);
        let name = self.name;
        if self.how.prints {
            writeln!(self.faults, "{name}:{line}: {cause}")?;
            return Ok(());
        }
        writeln!(out, "{name}:{line}: {cause}")
    }

    /// Notes the answers to a line whose text is to be written.
    fn note_answer_to_print(
        &mut self,
        turn: &Turn<'_>,
        came: &str,
        is_right: bool,
    ) -> Result<(), AllocError> {
        let Some(place) = self.written.get_mut(turn.line.saturating_sub(1)) else {
            return Ok(());
        };
        match place {
            Some(written) => {
                written.take_next_answer(self.alloc, came, turn.turn, is_right, &mut self.told)
            }
            None => {
                *place = Some(Written::new(self.alloc, came, is_right)?);
                Ok(())
            }
        }
    }

    /// Takes the answer to a line that was played.
    pub fn take_answer<W: Write + Drop>(
        &mut self,
        turn: &Turn<'_>,
        reply: &Reply,
        out: &mut W,
    ) -> io::Result<()> {
        let came = reply.whole_text()?;
        if self.how.three_ways {
            self.keep_first_answer(turn.line, came)?;
        }
        let Some(wanted) = turn.wanted else {
            self.note_answer_to_print(turn, came, false)?;
            return self.report_unasked(turn, came, out);
        };
        self.answers = self.answers.saturating_add(1);
        put_words_in_turn(wanted, turn.turn, &mut self.told);
        let is_right = is_expected_answer(self.told.whole_text()?, came);
        self.note_answer_to_print(turn, came, is_right)?;
        if is_right {
            return Ok(());
        }
        self.wrong = self.wrong.saturating_add(1);
        if self.how.prints || !self.count_wrong_turn(turn.line)? {
            return Ok(());
        }
        write!(out, "{}:{}: ", self.name, turn.line)?;
        if let Some(turns) = turn.turn {
            write!(out, "turn {}: ", turns.saturating_add(1))?;
        }
        put_words_in_turn(wanted, turn.turn, &mut self.told);
        writeln!(out, "wanted {}, came {came}", self.told.whole_text()?)
    }

    /// Notes a wrong answer to a line; whether it is the first one.
    fn count_wrong_turn(&mut self, line: usize) -> Result<bool, AllocError> {
        for noted in self.wrong_turns.iter_mut() {
            if noted.0 == line {
                noted.1 = noted.1.saturating_add(1);
                return Ok(false);
            }
        }
        self.wrong_turns.push((line, 1))?;
        Ok(true)
    }

    /// Reports the answer to a line that expects none.
    pub fn report_unasked<W: Write + Drop>(
        &mut self,
        turn: &Turn<'_>,
        came: &str,
        out: &mut W,
    ) -> io::Result<()> {
        if self.how.prints {
            return Ok(());
        }
        put_words_in_turn(turn.call, turn.turn, &mut self.told);
        writeln!(out, "{} : {came}", self.told.whole_text()?)
    }

    /// Keeps an answer, to be compared with those of other ways.
    fn keep_first_answer(&mut self, line: usize, came: &str) -> Result<(), AllocError> {
        let answer = String::from_str(self.alloc, came)?;
        self.firsts.push(First { line, answer })?;
        Ok(())
    }

    /// Reports an answer of another way, if it differs from that at an index of the first ones.
    pub fn compare_answer<W: Write + Drop>(
        &mut self,
        at: usize,
        reply: &Reply,
        way: &str,
        out: &mut W,
    ) -> io::Result<()> {
        let came = reply.whole_text()?;
        let Some(first) = self.firsts.get(at) else {
            return Ok(());
        };
        if first.answer.as_str() == came {
            return Ok(());
        }
        self.wrong = self.wrong.saturating_add(1);
        let (name, line, wanted) = (self.name, first.line, &first.answer);
        writeln!(out, "{name}:{line}: wanted {wanted}, came {came} ({way})")
    }

    /// Compares the look-ups of a machine that was opened in another way with their expected values. A difference is
    /// reported at the line of the first answer.
    pub fn compare_opening<W: Write + Drop>(
        &mut self,
        wanted: &str,
        reply: &Reply,
        way: &str,
        out: &mut W,
    ) -> io::Result<()> {
        let came = reply.whole_text()?;
        if came == wanted {
            return Ok(());
        }
        self.wrong = self.wrong.saturating_add(1);
        let name = self.name;
        let line = match self.firsts.first() {
            Some(first) => first.line,
            None => 0,
        };
        writeln!(out, "{name}:{line}: wanted {wanted}, came {came} ({way})")
    }

    /// Reports how many examples and answers there were, or writes the text with its answers.
    pub(crate) fn end_text<W: Write + Drop>(
        &mut self,
        lines: &[&str],
        out: &mut W,
    ) -> io::Result<()> {
        if self.how.prints {
            return self.write_text(lines, out);
        }
        let (name, examples, answers) = (self.name, self.examples, self.answers);
        write!(out, "{name}: {examples} examples, {answers} answers")?;
        if self.wrong > 0 {
            write!(out, ", {} wrong", self.wrong)?;
        }
        if self.unreadable > 0 {
            write!(out, ", {} unreadable", self.unreadable)?;
        }
        writeln!(out)
    }

    /// Writes the lines of the text, with the answers that came.
    fn write_text<W: Write + Drop>(&mut self, lines: &[&str], out: &mut W) -> io::Result<()> {
        for (at, line) in lines.iter().enumerate() {
            self.told.clear();
            match self.written.get(at) {
                Some(Some(written)) => written.put_line(line, &mut self.told)?,
                _ => self.told.put_text(line),
            }
            writeln!(out, "{}", self.told.whole_text()?)?;
        }
        Ok(())
    }
}
