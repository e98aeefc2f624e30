//! A label with a number or a word, the counts of what was sent, and a word of memory: a line, or a member of an
//! object.

ghost use Rattle.std.specs.Prelude.{◌≡◌, ◌++◌, OnOk};
ghost use Rattle.report_lines.specs.Lines.{counts_text, field, value_text, word_field};
ghost use Rattle.report_lines.specs.Members.{line, member, word_member};

use crate::addresses::put_address;
use crate::layout::{Layout, put_by_layout};
use itoa::Buffer;
use network::Counts;
use physiological_order::WordAddr;
use std::alloc::AllocError;

/// A line: a label, a space and a text.
pub(crate) fn put_labelled_line(
    out: &mut Vec<u8>,
    label: &[u8],
    text: &[u8],
) -> Result<(), AllocError>
    ensures { OnOk result (out.new.items ≡ out.old.items ++ line label.now text.now) }
{
    out.extend_from_slice(label)?;
    out.push(b' ')?;
    out.extend_from_slice(text)?;
    out.push(b'\n')?;
    Ok(())
}

/// A member behind another: a comma, the label between quotation marks, a colon and a text.
pub(crate) fn put_member(out: &mut Vec<u8>, label: &[u8], text: &[u8]) -> Result<(), AllocError>
    ensures { OnOk result (out.new.items ≡ out.old.items ++ member label.now text.now) }
{
    out.extend_from_slice(b",\"")?;
    out.extend_from_slice(label)?;
    out.extend_from_slice(b"\":")?;
    out.extend_from_slice(text)
}

/// The same with a word between quotation marks.
pub(crate) fn put_word_member(
    out: &mut Vec<u8>,
    label: &[u8],
    word: &[u8],
) -> Result<(), AllocError>
    ensures { OnOk result (out.new.items ≡ out.old.items ++ word_member label.now word.now) }
{
    put_member(out, label, b"\"")?;
    out.extend_from_slice(word)?;
    out.push(b'"')?;
    Ok(())
}

/// A label and a number: a line, or a member behind another. If allocation fails, part of it may be in the text.
#[tactic(auto, unfolding(crate::specs::Lines::field))]
pub fn put_labelled_number(
    out: &mut Vec<u8>,
    layout: Layout,
    label: &[u8],
    value: u128,
) -> Result<(), AllocError>
    ensures { OnOk result (out.new.items ≡ out.old.items ++ field layout label.now value) }
{
    let mut digits = Buffer::new();
    match layout {
        Layout::Lines => put_labelled_line(out, label, digits.format(value).as_bytes()),
        Layout::Json => put_member(out, label, digits.format(value).as_bytes()),
    }
}

/// A label and a word: a line, or a member behind another, with the word between quotation marks. If allocation fails,
/// part of it may be in the text.
#[tactic(auto, unfolding(crate::specs::Lines::word_field))]
pub fn put_labelled_word(
    out: &mut Vec<u8>,
    layout: Layout,
    label: &[u8],
    word: &[u8],
) -> Result<(), AllocError>
    ensures { OnOk result (out.new.items ≡ out.old.items ++ word_field layout label.now word.now) }
{
    match layout {
        Layout::Lines => put_labelled_line(out, label, word),
        Layout::Json => put_word_member(out, label, word),
    }
}

/// How many renewals, upgrades, flushes and write-backs were sent. If allocation fails, some of it may be in the text.
pub fn put_message_counts(
    out: &mut Vec<u8>,
    layout: Layout,
    counts: Counts,
) -> Result<(), AllocError>
    ensures { OnOk result (out.new.items ≡ out.old.items ++ counts_text layout counts) }
{
    put_labelled_number(out, layout, b"renewals", counts.renewals)?;
    put_labelled_number(out, layout, b"upgrades", counts.upgrades)?;
    put_labelled_number(out, layout, b"flushes", counts.flushes)?;
    put_labelled_number(out, layout, b"write-backs", counts.write_backs)
}

/// A word of memory, by its address, and its value: a line, or an object's first member. If allocation fails, part of
/// it may be in the text.
pub fn put_memory_word(
    out: &mut Vec<u8>,
    layout: Layout,
    word: WordAddr,
    value: u64,
) -> Result<(), AllocError>
    ensures { OnOk result (out.new.items ≡ out.old.items ++ value_text layout word value) }
{
    let mut digits = Buffer::new();
    put_by_layout(out, layout, b"word ", b"\"")?;
    put_address(out, word)?;
    put_by_layout(out, layout, b" ", b"\":")?;
    out.extend_from_slice(digits.format(value).as_bytes())?;
    put_by_layout(out, layout, b"\n", b"")
}
