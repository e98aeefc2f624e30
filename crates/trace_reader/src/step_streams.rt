//! Steps of a text, one after the other, of which no more is kept than a block.

ghost use Rattle.std.specs.Prelude.{◌≡◌, ◌≤◌, ◌<◌, ◌⊎◌, ◌++◌, ◌∷◌, [], List, ℕ, suc, length, true, false};
ghost use Rattle.std.specs.Prelude.{Option, Some, None, Result, Ok, Err, IfOk, IfErr, IfSome, OnErr, OnOk, is_some};
ghost use Rattle.std.specs.Option.{ForSome};
ghost use Rattle.byte_streams.specs.Device.{AtEnd};
ghost use Rattle.trace_reader.specs.declared.limits.TheConstants.{MOST_NUMBERED};

use crate::blocks::Block;
use crate::limits::MOST_NUMBERED;
use crate::next_lines::next_line;
use crate::trace_texts::read_form_and_step;
use byte_streams::Source;
use physiological_order::Op;
use trace_lines::{Form, Step, TraceError};

/// What a reader keeps of a text between two steps: bytes that were read ahead, how many lines were taken, and the form
/// that they declared. The text's source stays its caller's, who gives the same one at each call.
#[derive(Drop)]
pub struct StepStream {
    block: Block,
    number: usize,
    form: Option<Form>,
    held: Option<(u32, Step)>,
    ghost numbered: { number ≤ MOST_NUMBERED },
    ghost few: { ForSome held (λ told. told.0 < 64) },
}

impl StepStream {
    ghost use Rattle.trace_lines.specs.Fields.{fields_of};
    ghost use Rattle.trace_reader.specs.Ahead.{Both};
    ghost use Rattle.trace_reader.specs.Reading.{numbered, said_at};
    ghost use Rattle.trace_reader.specs.Streams.{coming, coming_of, lines_taken, steps_told};
    ghost use Rattle.trace_reader.specs.Streams.{Interrupts, OnlyFault, Yields};

    /// No line is taken yet.
    pub fn new() -> StepStream
        // What a source has is all that is to come.
        ensures told { (bytes : List ℕ) → coming result (Some bytes) ≡ Some (steps_told bytes) }
        ensures none { lines_taken result ≡ 0 }
    {
        StepStream {
            block: Block::new(),
            number: 0,
            form: None,
            held: None,
        }
    }

    /// How many lines were taken. The last of them tells the step that was read last.
    pub fn lines_taken(&self) -> usize
        ensures { result ≡ lines_taken self.now }
    {
        self.number
    }

    // Takes the next line, and holds the step that it tells, if it tells one: whether there was a line.
    fn take_line<S: Source>(&mut self, source: &mut S) -> Result<bool, TraceError>
        requires { self.old.held ≡ None }
        ensures kept { Yields (coming self.old (S.remaining source.old))
            (coming self.new (S.remaining source.new)) [] }
        ensures end { result ≡ Ok false →
            IfSome (S.remaining source.old) (λ known. AtEnd (S.remaining source.new))
            × OnlyFault None (coming self.old (S.remaining source.old)) × (self.new.held ≡ None) }
        ensures further { self.old.number ≤ self.new.number }
        ensures one { result ≡ Ok true → self.old.number < self.new.number }
        ensures none_failed { OnOk result (S.failures source.new ≡ S.failures source.old) }
        ensures fault { IfErr result (Interrupts (S.failures source.old) (S.failures source.new)
            (coming self.old (S.remaining source.old))) }
    {
        let Some(length) = next_line(&mut self.block, source, self.number, MOST_NUMBERED)? else {
            return Ok(false);
        };
        match read_form_and_step(self.form, self.block.front(length)) {
            Err(kind) => Err(TraceError {
                line: self.number + 1,
                kind,
            }),
            Ok((form, told)) => {
                self.block.remove_line(length);
                self.number += 1;
                self.form = form;
                self.held = told;
                Ok(true)
            }
        }
    }

    /// Reads on until the next step is held: whether there is one. What is to come stays as it is.
    pub(crate) fn hold_next_step<S: Source>(&mut self, source: &mut S) -> Result<bool, TraceError>
        ensures kept { Yields (coming self.old (S.remaining source.old))
            (coming self.new (S.remaining source.new)) [] }
        ensures held { IfOk result (λ held. held ≡ is_some self.new.held) }
        ensures end { result ≡ Ok false →
            IfSome (S.remaining source.old) (λ known. AtEnd (S.remaining source.new))
            × OnlyFault None (coming self.old (S.remaining source.old)) }
        ensures further { self.old.number ≤ self.new.number }
        ensures one { result ≡ Ok true → self.old.held ≡ None → self.old.number < self.new.number }
        ensures none_failed { OnOk result (S.failures source.new ≡ S.failures source.old) }
        ensures fault { IfErr result (Interrupts (S.failures source.old) (S.failures source.new)
            (coming self.old (S.remaining source.old))) }
    {
        'lines: while self.held.is_none() {
            if !self.take_line(source)? {
                return Ok(false);
            }
        }
        Ok(true)
    }

    /// The step that is held.
    pub(crate) fn held_step(&self) -> Option<(u32, Step)>
        ensures held { result ≡ self.now.held }
        ensures few { IfSome result (λ told. told.0 < 64) }
    {
        self.held
    }

    /// The step that is held, which is held no longer.
    pub(crate) fn release_step(&mut self) -> Option<(u32, Step)>
        ensures told { (bytes : Option (List ℕ)) →
            Yields (coming self.old bytes) (coming self.new bytes)
            (numbered (lines_taken self.new) result) }
        ensures held { (result ≡ self.old.held) × (self.new.held ≡ None) }
        ensures few { IfSome result (λ told. told.0 < 64) }
        ensures taken { lines_taken self.new ≡ lines_taken self.old }
    {
        // The check finds what a step holds only where the function names its type.
        let _inside: Option<Op> = None;
        self.held.take()
    }

    /// Reads on until a line tells a step, and gives that step with its core: none at the end of the text. The source
    /// is to be the one of all earlier calls.
    ///
    /// The lines and their faults are those of `read`, but there may be as many lines as their numbers allow: the line
    /// with the number 18,446,744,073,709,551,615 is `TooLong`. What is to come stays as it is if there is an error:
    /// the next call gives a line's fault again, and reads on if a call of the source failed (`Read`, with line 0). No
    /// call allocates.
    pub fn next<S: Source>(&mut self, source: &mut S) -> Result<Option<(u32, Step)>, TraceError>
        // The step is the first of those to come, with the number of the line that was taken last; all others stay.
        ensures told { IfOk result (λ told. Yields (coming self.old (S.remaining source.old))
            (coming self.new (S.remaining source.new)) (numbered (lines_taken self.new) told)) }
        ensures few { IfOk result (λ told. IfSome told (λ step. step.0 < 64)) }
        // There is no step at the end alone, and no fault stands before it.
        ensures end { result ≡ Ok None →
            IfSome (S.remaining source.old) (λ known. AtEnd (S.remaining source.new))
            × OnlyFault None (coming self.old (S.remaining source.old)) }
        ensures none_failed { OnOk result (S.failures source.new ≡ S.failures source.old) }
        // A fault loses nothing; no step stands before that of a line.
        ensures kept { OnErr result (Yields (coming self.old (S.remaining source.old))
            (coming self.new (S.remaining source.new)) []) }
        ensures fault { IfErr result (Interrupts (S.failures source.old) (S.failures source.new)
            (coming self.old (S.remaining source.old))) }
    {
        if !self.hold_next_step(source)? {
            return Ok(None);
        }
        Ok(self.release_step())
    }
}
