//! The layouts of a report: lines, or one JSON object. What they share is written by the same calls.

ghost use Rattle.std.specs.Prelude.{◌≡◌, ◌++◌, OnOk};
ghost use Rattle.report_lines.specs.Layouts.{closing, command_text, either, list_closing, list_opening};
ghost use Rattle.report_lines.specs.Layouts.{opening, parting};

use crate::lines::{put_labelled_line, put_member, put_word_member};
use itoa::Buffer;
use std::alloc::AllocError;

/// How a report is laid out: in lines that end with a line feed, or as one JSON object in one line. A word of a report
/// stands in the object as it is: it has no quotation mark and no backslash.
#[derive(Clone, Copy, Debug)]
pub enum Layout {
    Lines,
    Json,
}

/// The first text in lines, the other in an object. If allocation fails, part of it may be in the text.
#[tactic(auto, unfolding(crate::specs::Layouts::either))]
pub fn put_by_layout(
    out: &mut Vec<u8>,
    layout: Layout,
    lines: &[u8],
    json: &[u8],
) -> Result<(), AllocError>
    ensures { OnOk result (out.new.items ≡ out.old.items ++ either layout lines.now json.now) }
{
    match layout {
        Layout::Lines => out.extend_from_slice(lines),
        Layout::Json => out.extend_from_slice(json),
    }
}

/// What a report begins with: in lines nothing, in an object its version and the command. If allocation fails, part of
/// it may be in the text.
#[tactic(auto, unfolding(crate::specs::Layouts::opening))]
pub fn put_report_opening(
    out: &mut Vec<u8>,
    layout: Layout,
    command: &[u8],
) -> Result<(), AllocError>
    ensures { OnOk result (out.new.items ≡ out.old.items ++ opening layout command.now) }
{
    match layout {
        Layout::Lines => Ok(()),
        Layout::Json => put_command(out, command),
    }
}

// The version and the command, as an object begins.
fn put_command(out: &mut Vec<u8>, command: &[u8]) -> Result<(), AllocError>
    ensures { OnOk result (out.new.items ≡ out.old.items ++ command_text command.now) }
{
    out.extend_from_slice(b"{\"version\":1")?;
    put_word_member(out, b"command", command)
}

/// What a report ends with: in lines nothing, for an object its brace and a line feed. If allocation fails, part of it
/// may be in the text.
#[tactic(auto, unfolding(crate::specs::Layouts::closing))]
pub fn put_report_closing(out: &mut Vec<u8>, layout: Layout) -> Result<(), AllocError>
    ensures { OnOk result (out.new.items ≡ out.old.items ++ closing layout) }
{
    put_by_layout(out, layout, b"", b"}\n")
}

/// What stands before the items of a list: in lines how many there are, in an object the member that has them. If
/// allocation fails, part of it may be in the text.
#[tactic(auto, unfolding(crate::specs::Layouts::list_opening))]
pub fn put_list_opening(
    out: &mut Vec<u8>,
    layout: Layout,
    label: &[u8],
    count: usize,
) -> Result<(), AllocError>
    ensures { OnOk result (out.new.items ≡ out.old.items ++ list_opening layout label.now count) }
{
    let mut digits = Buffer::new();
    match layout {
        Layout::Lines => put_labelled_line(out, label, digits.format(count as u64).as_bytes()),
        Layout::Json => put_member(out, label, b"["),
    }
}

/// What stands behind the items of a list: in lines nothing, in an object the list's bracket.
#[tactic(auto, unfolding(crate::specs::Layouts::list_closing))]
pub fn put_list_closing(out: &mut Vec<u8>, layout: Layout) -> Result<(), AllocError>
    ensures { OnOk result (out.new.items ≡ out.old.items ++ list_closing layout) }
{
    put_by_layout(out, layout, b"", b"]")
}

/// What stands before an item of a list: in lines nothing, in an object a comma, but not before the first.
#[tactic(auto, unfolding(crate::specs::Layouts::parting))]
pub fn put_item_separator(out: &mut Vec<u8>, layout: Layout, first: bool) -> Result<(), AllocError>
    ensures { OnOk result (out.new.items ≡ out.old.items ++ parting layout first) }
{
    if first {
        return Ok(());
    }
    put_by_layout(out, layout, b"", b",")
}
