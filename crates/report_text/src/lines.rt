//! The lines, or members, that only this text has: each is appended to the text so far.

ghost use Rattle.std.specs.Prelude.{◌≡◌, ◌++◌, OnOk};
ghost use Rattle.litmus_reader.specs.TestViews.{test_of};
ghost use Rattle.report_text.specs.Lines.{name_text, named_values, register_text, state_text, value_text};
ghost use Rattle.report_text.specs.Lines.{quantifier_text, times_text};

use itoa::Buffer;
use litmus_reader::{Name, Quantifier, Test};
use report_lines::{Layout, put_by_layout, put_item_separator};
use std::alloc::AllocError;

/// The condition's first word, as it is written.
pub fn quantifier_text(quantifier: Quantifier) -> &'static [u8]
    ensures { result.now ≡ quantifier_text quantifier }
{
    match quantifier {
        Quantifier::Exists => b"exists",
        Quantifier::NotExists => b"~exists",
        Quantifier::Forall => b"forall",
    }
}

fn put_register_name(out: &mut Vec<u8>, thread: u8, register: u8) -> Result<(), AllocError>
    ensures { OnOk result (out.new.items ≡ out.old.items ++ register_text thread register) }
{
    let mut digits = Buffer::new();
    out.extend_from_slice(digits.format(thread).as_bytes())?;
    out.extend_from_slice(b":x")?;
    out.extend_from_slice(digits.format(register).as_bytes())?;
    Ok(())
}

/// A name of the condition: `T:xR` or the name of a location.
fn put_condition_name(out: &mut Vec<u8>, test: &Test, name: Name) -> Result<(), AllocError>
    ensures { OnOk result (out.new.items ≡
        out.old.items ++ name_text (test_of test.now).locations name) }
{
    match name {
        Name::Register(thread, register) => put_register_name(out, thread, register)?,
        Name::Location(number) => {
            out.extend_from_slice(test.location(number).unwrap_or(b""))?;
        }
    }
    Ok(())
}

/// A name of the condition and its value.
fn put_named_value(
    out: &mut Vec<u8>,
    layout: Layout,
    test: &Test,
    name: Name,
    value: u64,
) -> Result<(), AllocError>
    ensures { OnOk result (out.new.items ≡
        out.old.items ++ value_text layout (test_of test.now).locations name value) }
{
    let mut digits = Buffer::new();
    put_by_layout(out, layout, b" ", b"\"")?;
    put_condition_name(out, test, name)?;
    put_by_layout(out, layout, b"=", b"\":")?;
    out.extend_from_slice(digits.format(value).as_bytes())
}

/// The condition's names with their values, in order: in a line each behind a space, in an object its members. If
/// allocation fails, part of them may be in the text.
pub fn put_named_values(
    out: &mut Vec<u8>,
    layout: Layout,
    test: &Test,
    values: &[u64],
) -> Result<(), AllocError>
    ensures { OnOk result (out.new.items ≡
        out.old.items ++ named_values layout (test_of test.now) values.now) }
{
    let mut names = test.seen();
    let mut left = values;
    let mut first = true;
    while let Some((name, more_names)) = names.split_first() {
        let Some((value, more)) = left.split_first() else {
            return Ok(());
        };
        put_item_separator(out, layout, first)?;
        put_named_value(out, layout, test, *name, *value)?;
        names = more_names;
        left = more;
        first = false;
    }
    Ok(())
}

/// How often an end state occurred, before its values.
#[tactic(auto, unfolding(crate::specs::Lines::times_text))]
fn put_state_count(out: &mut Vec<u8>, layout: Layout, count: u64) -> Result<(), AllocError>
    ensures { OnOk result (out.new.items ≡ out.old.items ++ times_text layout count) }
{
    let mut digits = Buffer::new();
    put_by_layout(out, layout, b"", b"{\"count\":")?;
    out.extend_from_slice(digits.format(count).as_bytes())?;
    put_by_layout(out, layout, b"", b",\"values\":{")
}

/// An end state: how often it occurred, and the condition's names with their values.
#[tactic(auto, unfolding(crate::specs::Lines::state_text))]
pub(crate) fn put_end_state(
    out: &mut Vec<u8>,
    layout: Layout,
    test: &Test,
    count: u64,
    values: &[u64],
) -> Result<(), AllocError>
    ensures { OnOk result (out.new.items ≡
        out.old.items ++ state_text layout (test_of test.now) (count, values.now)) }
{
    put_state_count(out, layout, count)?;
    put_named_values(out, layout, test, values)?;
    put_by_layout(out, layout, b"\n", b"}}")
}
