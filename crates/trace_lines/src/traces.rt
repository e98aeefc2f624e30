//! The lines of a trace.

ghost use Rattle.std.specs.Prelude.{◌≡◌, ℕ, [], Ok, Some, None, option_map, MatchOption, IfOk, IfErr};
ghost use Rattle.trace_lines.specs.Causes.{TraceCause};
ghost use Rattle.trace_lines.specs.Grammar.{IsTraceLine};
ghost use Rattle.programs.specs.declared.steps.Step.{Step};
ghost use Rattle.trace_lines.specs.Fields.{fields_of};
ghost use Rattle.trace_lines.specs.Reading.{ended, operand_at, op_at, behind_advance, step_at, trace_at};
ghost use Rattle.trace_lines.specs.Reading.{trace_line_at};
ghost use Rattle.trace_lines.specs.Spelling.{most_cores_named};

use crate::errors::Kind;
use crate::lines::{has_field, next_field};
use crate::reads::{read_access_field, read_address_field, read_core_field, read_number_field};
use crate::steps::{Access, Form};
use physiological_order::{Op, WordAddr};
use programs::Step;

/// How many cores a trace may name.
fn most_cores_of_form(form: Form) -> u8
    ensures { result ≡ most_cores_named form }
{
    match form {
        Form::One => 16,
        Form::Two => 64,
    }
}

/// An operation that no field follows.
#[tactic(auto, unfolding(crate::specs::Reading::ended))]
fn op_at_line_end(op: Op, line: &[u8]) -> Result<Op, Kind>
    ensures { result ≡ ended op (fields_of line.now) }
{
    match next_field(line) {
        None => Ok(op),
        Some(_) => Err(Kind::ExtraWords),
    }
}

/// The operation on a word, with its value if it writes one, where no field follows.
fn read_operand_fields(access: Access, word: WordAddr, line: &[u8]) -> Result<Op, Kind>
    ensures { result ≡ operand_at access word (fields_of line.now) }
{
    match access {
        Access::Read => op_at_line_end(Op::Load(word), line),
        Access::Write => {
            let (value, rest) = read_number_field(line)?;
            op_at_line_end(Op::Store(word, value), rest)
        }
        Access::Swap => {
            let (value, rest) = read_number_field(line)?;
            op_at_line_end(Op::Swap(word, value), rest)
        }
    }
}

#[tactic(auto, unfolding(crate::specs::Reading::op_at))]
fn read_op_fields(line: &[u8]) -> Result<Op, Kind>
    ensures { result ≡ op_at (fields_of line.now) }
{
    let (access, rest) = read_access_field(line)?;
    let (word, rest) = read_address_field(rest)?;
    read_operand_fields(access, WordAddr::at(word), rest)
}

/// What follows `A`, which form 2 has.
fn skip_advance_field(form: Form, line: &[u8]) -> Option<&[u8]>
    ensures { option_map (λ rest. fields_of rest.now) result
        ≡ behind_advance form (fields_of line.now) }
{
    match (form, next_field(line)) {
        (Form::Two, Some((b"A", rest))) => Some(rest),
        _ => None,
    }
}

#[tactic(auto, unfolding(crate::specs::Reading::step_at, crate::specs::Reading::ended))]
fn read_step_fields(form: Form, line: &[u8]) -> Result<Step, Kind>
    ensures { result ≡ step_at form (fields_of line.now) }
{
    match skip_advance_field(form, line) {
        Some(rest) => match next_field(rest) {
            None => Ok(Step::Advance),
            Some(_) => Err(Kind::ExtraWords),
        },
        None => {
            let op = read_op_fields(line)?;
            Ok(Step::Op(op))
        }
    }
}

#[tactic(auto, unfolding(crate::specs::Reading::trace_at))]
fn read_trace_fields(form: Form, line: &[u8]) -> Result<(u32, Step), Kind>
    ensures { result ≡ trace_at form (fields_of line.now) }
{
    let (core, rest) = read_core_field(line, most_cores_of_form(form))?;
    let step = read_step_fields(form, rest)?;
    Ok((core, step))
}

#[tactic(auto, unfolding(crate::specs::Reading::trace_line_at))]
fn read_step(form: Form, line: &[u8]) -> Result<Option<(u32, Step)>, Kind>
    ensures { result ≡ trace_line_at form (fields_of line.now) }
{
    if !has_field(line) {
        return Ok(None);
    }
    let told = read_trace_fields(form, line)?;
    Ok(Some(told))
}

/// What a line of a trace says, given without its line feed: a core, 0 to 15 in form 1 and 0 to 63 in form 2, and its
/// step; nothing if the line has no fields. A fault is the first from the left: `BadCore`, `BadOperation`, `BadAddress`
/// or `BadValue` if the field is missing or is none, `ExtraWords` if more fields follow (docs/TEXTS.md).
pub fn trace_line(form: Form, line: &[u8]) -> Result<Option<(u32, Step)>, Kind>
    ensures told { result ≡ trace_line_at form (fields_of line.now) }
    ensures nothing { fields_of line.now ≡ [] → result ≡ Ok None }
    ensures found { IfOk result (λ told. MatchOption told (fields_of line.now ≡ [])
        (λ read. IsTraceLine form (fields_of line.now) read.0 read.1)) }
    ensures only { (core : ℕ) (step : Step) → IsTraceLine form (fields_of line.now) core step →
        result ≡ Ok (Some (core, step)) }
    ensures fault { IfErr result (λ kind. TraceCause form kind (fields_of line.now)) }
{
    read_step(form, line)
}
