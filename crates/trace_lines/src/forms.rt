//! The line that declares the form of a trace.

ghost use Rattle.std.specs.Prelude.{◌≡◌, [], Ok, Some, None, MatchOption, IfOk, IfErr};
ghost use Rattle.trace_lines.specs.declared.steps.Form.{Form};
ghost use Rattle.trace_lines.specs.Causes.{FormCause};
ghost use Rattle.trace_lines.specs.Fields.{fields_of};
ghost use Rattle.trace_lines.specs.Grammar.{IsFormLine};
ghost use Rattle.trace_lines.specs.Reading.{form_named, form_line_at};

use crate::errors::Kind;
use crate::lines::next_field;
use crate::steps::Form;

/// The form that follows `trace`: `2`, and nothing else.
#[tactic(auto, unfolding(crate::specs::Reading::ended))]
fn form_named(line: &[u8]) -> Result<Option<Form>, Kind>
    ensures { result ≡ form_named (fields_of line.now) }
{
    match next_field(line) {
        Some((b"2", rest)) => match next_field(rest) {
            None => Ok(Some(Form::Two)),
            Some(_) => Err(Kind::ExtraWords),
        },
        _ => Err(Kind::BadForm),
    }
}

#[tactic(auto, unfolding(crate::specs::Reading::form_line_at))]
fn read_trace_form(line: &[u8]) -> Result<Option<Form>, Kind>
    ensures { result ≡ form_line_at (fields_of line.now) }
{
    match next_field(line) {
        None => Ok(None),
        Some((b"trace", rest)) => form_named(rest),
        Some(_) => Ok(Some(Form::One)),
    }
}

/// The form of a trace, by its first line that has fields, given without its line feed: form 2 for `trace 2`, and form
/// 1 for any line that does not begin with `trace`; nothing if the line has no fields. `BadForm` if `trace` isn't
/// followed by `2`, `ExtraWords` if more fields follow (docs/TEXTS.md).
pub fn form_line(line: &[u8]) -> Result<Option<Form>, Kind>
    ensures told { result ≡ form_line_at (fields_of line.now) }
    ensures nothing { fields_of line.now ≡ [] → result ≡ Ok None }
    ensures found { IfOk result (λ told. MatchOption told (fields_of line.now ≡ [])
        (λ form. IsFormLine (fields_of line.now) form)) }
    ensures only { (form : Form) → IsFormLine (fields_of line.now) form →
        result ≡ Ok (Some form) }
    ensures fault { IfErr result (λ kind. FormCause kind (fields_of line.now)) }
{
    read_trace_form(line)
}
