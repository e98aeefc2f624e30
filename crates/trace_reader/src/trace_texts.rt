//! Reading the text of a trace.

ghost use Rattle.std.specs.Prelude.{◌≡◌, ◌≤◌, ◌<◌, ◌⊎◌, ◌++◌, ℕ, suc, List};
ghost use Rattle.std.specs.Prelude.{Option, Ok, Err, IfOk, IfErr, IfSome, OnOk};
ghost use Rattle.byte_streams.specs.Device.{AtEnd};
ghost use Rattle.trace_lines.specs.declared.errors.Kind.TheVariants.{Read, NoMemory};
ghost use Rattle.trace_lines.specs.declared.steps.Form.{Form};
ghost use Rattle.programs.specs.declared.steps.Step.{Step};
ghost use Rattle.trace_lines.specs.Fields.{fields_of};
ghost use Rattle.trace_lines.specs.Reading.{form_line_at, trace_line_at};
ghost use Rattle.trace_reader.specs.Causes.{TraceFault};
ghost use Rattle.trace_reader.specs.Grammar.{IsTrace};
ghost use Rattle.trace_reader.specs.Outcomes.{whole, Refused, AnswersUnlessFailed, IsCaused};
ghost use Rattle.trace_reader.specs.Reading.{list_of_option, step_said, form_said, said_at, steps_in, steps_read};
ghost use Rattle.trace_reader.specs.Steps.{IsByCore};

use crate::traces::Trace;
use crate::whole_texts::{FromLines, read_lines};
use byte_streams::Source;
use std::alloc::Global;
use trace_lines::{Form, Kind, Step, TraceError, form_line, trace_line};

type Said = (Option<Form>, Option<(u32, Step)>);

/// What a line says in a form that is known.
fn read_line_in_form(form: Form, line: &[u8]) -> Result<Said, Kind>
    ensures told { result ≡ step_said form (fields_of line.now) }
    ensures few { IfOk result (λ said. IfSome said.1 (λ told. told.0 < 64)) }
{
    let told = trace_line(form, line)?;
    Ok((Some(form), told))
}

/// What a line says after lines that declared this form or none: the form from there on, and a step of a core.
#[tactic(auto, unfolding(crate::specs::Reading::said_at))]
pub(crate) fn read_form_and_step(form: Option<Form>, line: &[u8]) -> Result<Said, Kind>
    ensures told { result ≡ said_at form (fields_of line.now) }
    ensures few { IfOk result (λ said. IfSome said.1 (λ told. told.0 < 64)) }
{
    match form {
        Some(form) => read_line_in_form(form, line),
        None => match form_line(line)? {
            None => Ok((None, None)),
            Some(Form::One) => read_line_in_form(Form::One, line),
            Some(Form::Two) => Ok((Some(Form::Two), None)),
        },
    }
}

// The steps of a trace so far, and the form that its lines declared.
#[derive(Drop)]
struct Steps {
    trace: Trace,
    form: Option<Form>,
}

impl FromLines for Steps {
    ghost use Rattle.std.specs.Prelude.{◌≡◌, ℕ, Option, None};
    ghost use Rattle.trace_lines.specs.declared.steps.Form.{Form};
    ghost use Rattle.programs.specs.declared.steps.Step.{Step};
    ghost use Rattle.trace_reader.specs.Reading.{said_at};
    ghost use Rattle.trace_reader.specs.Steps.{IsByCore};

    ghost State = { Option Form };

    ghost Item = { ℕ × Step };

    ghost says = { said_at };

    ghost first = { None };

    ghost holds = { λ steps told form. IsByCore told steps.trace × (steps.form ≡ form) };

    fn add_line(&mut self, number: usize, line: &[u8]) -> Result<(), TraceError> {
        match read_form_and_step(self.form, line) {
            Err(kind) => Err(TraceError { line: number, kind }),
            Ok((form, told)) => {
                self.form = form;
                match told {
                    None => Ok(()),
                    Some((core, step)) => match self.trace.push(core, step) {
                        Ok(()) => Ok(()),
                        Err(_) => Err(TraceError {
                            line: 0,
                            kind: Kind::NoMemory,
                        }),
                    },
                }
            }
        }
    }
}

fn read_trace_text<S: Source>(alloc: Global, source: &mut S) -> Result<Trace, TraceError>
    ensures told { IfOk result (λ trace. IfSome (S.remaining source.old)
        (λ bytes. (told : List (ℕ × Step)) × (steps_read bytes ≡ Ok told) × IsByCore told trace)) }
    ensures end { OnOk result (IfSome (S.remaining source.old)
        (λ known. AtEnd (S.remaining source.new))) }
    ensures none_failed { OnOk result (S.failures source.new ≡ S.failures source.old) }
    ensures fault { IfErr result (Refused steps_in (S.failures source.old)
        (S.failures source.new) (S.remaining source.old)) }
{
    let mut steps = Steps {
        trace: Trace::new(alloc),
        form: None,
    };
    read_lines(source, &mut steps)?;
    Ok(steps.trace)
}

/// Reads all that a source has as the text of a trace of at most 16,777,216 lines of at most 256 bytes; its first line
/// that has fields declares its form (docs/TEXTS.md).
///
/// A text that is refused is answered by its first fault: the number of the line, counted from 1, and the kind.
/// `TooLong` if a line has more bytes or there are more lines; the other kinds as `trace_line` and `form_line` give
/// them. If a call of the source failed the answer is `Read`, and if an allocation failed `NoMemory`, both with line
/// 0.
pub fn read<S: Source>(alloc: Global, source: &mut S) -> Result<Trace, TraceError>
    // What is read is what the text says.
    ensures found { IfOk result (λ trace. IfSome (S.remaining source.old)
        (λ bytes. IsTrace bytes trace)) }
    // Every text of the grammar is read, as the trace that it stands for.
    ensures only { IfSome (S.remaining source.old) (λ bytes.
        (lanes : List (List Step)) → IsTrace bytes lanes → AnswersUnlessFailed lanes result) }
    // The fault of a line has its cause there.
    ensures fault { IfErr result (IsCaused TraceFault (S.remaining source.old)) }
    // The steps as they are read from the front, each at its core.
    ensures told { IfOk result (λ trace. IfSome (S.remaining source.old)
        (λ bytes. (told : List (ℕ × Step)) × (steps_read bytes ≡ Ok told) × IsByCore told trace)) }
    // The first fault; memory is refused only where a step stands before any fault.
    ensures refused { IfErr result (Refused steps_in (S.failures source.old)
        (S.failures source.new) (S.remaining source.old)) }
    ensures none_failed { OnOk result (S.failures source.new ≡ S.failures source.old) }
    ensures end { OnOk result (IfSome (S.remaining source.old)
        (λ known. AtEnd (S.remaining source.new))) }
{
    read_trace_text(alloc, source)
}
