//! Reading the text of an opening.

ghost use Rattle.std.specs.Prelude.{◌≡◌, ◌⊎◌, ◌++◌, ℕ, List, Option, Some, None, Ok, Err};
ghost use Rattle.std.specs.Prelude.{IfOk, IfErr, IfSome, OnOk};
ghost use Rattle.std.specs.FinMap.{FinMap, get, insert};
ghost use Rattle.std.specs.Ordering.{nat_cmp};
ghost use Rattle.byte_streams.specs.Device.{AtEnd};
ghost use Rattle.trace_lines.specs.declared.errors.Kind.TheVariants.{NoMemory};
ghost use Rattle.trace_lines.specs.Fields.{fields_of};
ghost use Rattle.trace_reader.specs.Causes.{OpeningFault};
ghost use Rattle.trace_reader.specs.Grammar.{IsOpening};
ghost use Rattle.trace_reader.specs.Openings.{AreOpened};
ghost use Rattle.trace_reader.specs.Outcomes.{whole, Refused, AnswersUnlessFailed, IsCaused};
ghost use Rattle.trace_reader.specs.Reading.{opened_once, opening_in, opening_read, opening_said};

use crate::whole_texts::{FromLines, read_lines};
use byte_streams::Source;
use number_map::NumberMap;
use physiological_order::{Memory, WordAddr};
use std::alloc::{AllocError, Global};
use trace_lines::{Kind, TraceError, opening_line};

// The words that were opened so far, and the memory that they stand in.
#[derive(Drop)]
struct Opened {
    words: NumberMap<u64>,
    memory: Memory,
}

impl Opened {
    // Opens a word, here and in the memory.
    fn open_word(&mut self, addr: WordAddr, value: u64) -> Result<(), AllocError>
        requires { self.old.words ≡ self.old.memory }
        ensures opened { OnOk result (self.new.memory ≡ insert self.old.memory addr value) }
        ensures same { OnOk result (self.new.words ≡ self.new.memory) }
    {
        self.words.insert(addr.word(), value)?;
        self.memory.set(addr, value)
    }

    // Opens the word of the line with this number, unless an earlier line opened it.
    fn open_word_of_line(
        &mut self,
        number: usize,
        addr: WordAddr,
        value: u64,
    ) -> Result<(), TraceError>
        requires { self.old.words ≡ self.old.memory }
        ensures added { OnOk result ((opened_once self.old.memory (addr, value)
            (get self.old.memory addr) ≡ Ok (self.new.memory, Some (addr, value)))
            × (self.new.words ≡ self.new.memory)) }
        ensures fault { IfErr result (λ e.
            ((e ≡ whole NoMemory) × (get self.old.memory addr ≡ None)) ⊎ ((e.line ≡ number)
            × (opened_once self.old.memory (addr, value) (get self.old.memory addr) ≡ Err e.kind))) }
    {
        match self.words.get(addr.word()) {
            Some(_) => Err(TraceError {
                line: number,
                kind: Kind::DoubleWord,
            }),
            None => match self.open_word(addr, value) {
                Ok(()) => Ok(()),
                Err(AllocError) => Err(TraceError {
                    line: 0,
                    kind: Kind::NoMemory,
                }),
            },
        }
    }
}

impl FromLines for Opened {
    ghost use Rattle.std.specs.Prelude.{◌≡◌, ℕ};
    ghost use Rattle.std.specs.FinMap.{FinMap, empty};
    ghost use Rattle.std.specs.Ordering.{nat_cmp};
    ghost use Rattle.trace_reader.specs.Openings.{AreOpened};
    ghost use Rattle.trace_reader.specs.Reading.{opening_said};

    ghost State = { FinMap nat_cmp ℕ };

    ghost Item = { ℕ × ℕ };

    ghost says = { opening_said };

    ghost first = { empty };

    ghost holds = { λ opened told words.
        AreOpened told words × (opened.words ≡ words) × (opened.memory ≡ words) };

    fn add_line(&mut self, number: usize, line: &[u8]) -> Result<(), TraceError> {
        match opening_line(line) {
            Err(kind) => Err(TraceError { line: number, kind }),
            Ok(None) => Ok(()),
            Ok(Some((addr, value))) => self.open_word_of_line(number, addr, value),
        }
    }
}

fn read_opening_text<S: Source>(alloc: Global, source: &mut S) -> Result<Memory, TraceError>
    ensures told { IfOk result (λ memory. IfSome (S.remaining source.old)
        (λ bytes. (told : List (ℕ × ℕ)) × (opening_read bytes ≡ Ok told) × AreOpened told memory)) }
    ensures end { OnOk result (IfSome (S.remaining source.old)
        (λ known. AtEnd (S.remaining source.new))) }
    ensures none_failed { OnOk result (S.failures source.new ≡ S.failures source.old) }
    ensures fault { IfErr result (Refused opening_in (S.failures source.old)
        (S.failures source.new) (S.remaining source.old)) }
{
    let mut opened = Opened {
        words: NumberMap::new(alloc),
        memory: Memory::new(alloc),
    };
    read_lines(source, &mut opened)?;
    Ok(opened.memory)
}

/// Reads all that a source has as the text of an opening, at most 16,777,216 lines of at most 256 bytes: a memory of
/// zeros, but for the words of the lines, each with its value (docs/TEXTS.md).
///
/// A text that is refused is answered by its first fault: the number of the line, counted from 1, and the kind.
/// `TooLong` if a line has more bytes or there are more lines, `DoubleWord` if an earlier line has its word; the other
/// kinds as `opening_line` gives them. If a call of the source failed the answer is `Read`, and if an allocation failed
/// `NoMemory`, both with line 0.
pub fn read_opening<S: Source>(alloc: Global, source: &mut S) -> Result<Memory, TraceError>
    // What is read is what the text says.
    ensures found { IfOk result (λ memory. IfSome (S.remaining source.old)
        (λ bytes. IsOpening bytes memory)) }
    // Every text of the grammar is read, as the memory that it stands for.
    ensures only { IfSome (S.remaining source.old) (λ bytes.
        (words : FinMap nat_cmp ℕ) → IsOpening bytes words → AnswersUnlessFailed words result) }
    // The fault of a line has its cause there.
    ensures fault { IfErr result (IsCaused OpeningFault (S.remaining source.old)) }
    // The words as they are read from the front.
    ensures told { IfOk result (λ memory. IfSome (S.remaining source.old)
        (λ bytes. (told : List (ℕ × ℕ)) × (opening_read bytes ≡ Ok told) × AreOpened told memory)) }
    // The first fault; memory is refused only where a word stands before any fault.
    ensures refused { IfErr result (Refused opening_in (S.failures source.old)
        (S.failures source.new) (S.remaining source.old)) }
    ensures none_failed { OnOk result (S.failures source.new ≡ S.failures source.old) }
    ensures end { OnOk result (IfSome (S.remaining source.old)
        (λ known. AtEnd (S.remaining source.new))) }
{
    read_opening_text(alloc, source)
}
