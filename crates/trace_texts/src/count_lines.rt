//! What a run did, in numbers (docs/COUNTS.md), appended to the text so far: in lines, or as members of an object.

ghost use Rattle.std.specs.Prelude.{◌≡◌, ◌++◌, ◌<◌, ◌+◌, ◌-◌, ◌*◌, ◌^◌, OnOk, Some};
ghost use Rattle.report_lines.specs.declared.layout.Layout.TheVariants.{Lines, Json};
ghost use Rattle.trace_texts.specs.CountLines.{asked_text, bank_text, banks_text, copies_text, core_text};
ghost use Rattle.trace_texts.specs.CountLines.{cores_text, counted_text, done_text, dram_text};
ghost use Rattle.trace_texts.specs.CountLines.{event_counts_text, found_text, kind_text, named, next_named};
ghost use Rattle.trace_texts.specs.CountLines.{part_text, recalled_text, row_text, rows_text, sent_text};
ghost use Rattle.trace_texts.specs.CountLines.{completed_text, end_counts_text, end_opening, row_opening};
ghost use Rattle.trace_texts.specs.CountLines.{totals_text};

use event_counts::{CoreCounts, EventCounts, KindCounts, PartCounts};
use itoa::Buffer;
use report_lines::{
    Layout, put_by_layout, put_item_separator, put_labelled_number, put_list_closing,
};
use std::alloc::AllocError;

// A name and a number, behind what opens the name.
#[tactic(auto, unfolding(crate::specs::CountLines::named))]
fn put_named_count(
    out: &mut Vec<u8>,
    layout: Layout,
    name: &[u8],
    number: u64,
) -> Result<(), AllocError>
    ensures { OnOk result (out.new.items ≡ out.old.items ++ named layout name.now number) }
{
    let mut digits = Buffer::new();
    out.extend_from_slice(name)?;
    put_by_layout(out, layout, b" ", b"\":")?;
    out.extend_from_slice(digits.format(number).as_bytes())
}

// The same behind another number.
#[tactic(auto, unfolding(crate::specs::CountLines::next_named))]
fn put_next_count(
    out: &mut Vec<u8>,
    layout: Layout,
    name: &[u8],
    number: u64,
) -> Result<(), AllocError>
    ensures { OnOk result (out.new.items ≡ out.old.items ++ next_named layout name.now number) }
{
    put_by_layout(out, layout, b" ", b",\"")?;
    put_named_count(out, layout, name, number)
}

// A kind of message and how many were sent, if any were.
fn put_kind_if_sent(
    out: &mut Vec<u8>,
    layout: Layout,
    name: &[u8],
    number: u64,
) -> Result<(), AllocError>
    ensures { OnOk result (out.new.items ≡ out.old.items ++ kind_text layout name.now number) }
{
    if number == 0 {
        return Ok(());
    }
    put_next_count(out, layout, name, number)
}

// Requests of cores, and the replies to them.
fn put_requests_and_replies(
    out: &mut Vec<u8>,
    layout: Layout,
    sent: &KindCounts,
) -> Result<(), AllocError>
    ensures { OnOk result (out.new.items ≡ out.old.items ++ asked_text layout sent.now) }
{
    put_kind_if_sent(out, layout, b"ShReq", sent.sh_req)?;
    put_kind_if_sent(out, layout, b"ExReq", sent.ex_req)?;
    put_kind_if_sent(out, layout, b"ShRep", sent.sh_rep)?;
    put_kind_if_sent(out, layout, b"ExRep", sent.ex_rep)?;
    put_kind_if_sent(out, layout, b"RenewRep", sent.renew_rep)?;
    put_kind_if_sent(out, layout, b"UpgradeRep", sent.upgrade_rep)
}

// Recalls, and what they return.
fn put_recalls_and_returns(
    out: &mut Vec<u8>,
    layout: Layout,
    sent: &KindCounts,
) -> Result<(), AllocError>
    ensures { OnOk result (out.new.items ≡ out.old.items ++ recalled_text layout sent.now) }
{
    put_kind_if_sent(out, layout, b"FlushReq", sent.flush_req)?;
    put_kind_if_sent(out, layout, b"WbReq", sent.wb_req)?;
    put_kind_if_sent(out, layout, b"FlushRep", sent.flush_rep)?;
    put_kind_if_sent(out, layout, b"WbRep", sent.wb_rep)
}

// Messages between a bank and its DRAM.
fn put_dram_messages(out: &mut Vec<u8>, layout: Layout, sent: &KindCounts) -> Result<(), AllocError>
    ensures { OnOk result (out.new.items ≡ out.old.items ++ dram_text layout sent.now) }
{
    put_kind_if_sent(out, layout, b"DramLd", sent.dram_ld)?;
    put_kind_if_sent(out, layout, b"DramLdRep", sent.dram_ld_rep)?;
    put_kind_if_sent(out, layout, b"DramSt", sent.dram_st)?;
    put_kind_if_sent(out, layout, b"DramStRep", sent.dram_st_rep)
}

// The messages by kind.
fn put_sent_messages(out: &mut Vec<u8>, layout: Layout, sent: &KindCounts) -> Result<(), AllocError>
    ensures { OnOk result (out.new.items ≡ out.old.items ++ sent_text layout sent.now) }
{
    put_requests_and_replies(out, layout, sent)?;
    put_recalls_and_returns(out, layout, sent)?;
    put_dram_messages(out, layout, sent)
}

// What stands before the first number of a part.
#[tactic(auto, unfolding(crate::specs::CountLines::part_text))]
fn put_part_opening(
    out: &mut Vec<u8>,
    layout: Layout,
    part: &[u8],
    number: usize,
) -> Result<(), AllocError>
    ensures { OnOk result (out.new.items ≡ out.old.items ++ part_text layout part.now number) }
{
    match layout {
        Layout::Lines => put_part_name(out, part, number),
        Layout::Json => out.extend_from_slice(b"{\""),
    }
}

// The name and the number of a part, and a space.
#[tactic(auto, unfolding(crate::specs::CountLines::part_text))]
fn put_part_name(out: &mut Vec<u8>, part: &[u8], number: usize) -> Result<(), AllocError>
    ensures { OnOk result (out.new.items ≡ out.old.items ++ part_text Lines part.now number) }
{
    let mut digits = Buffer::new();
    out.extend_from_slice(part)?;
    out.extend_from_slice(digits.format(number as u64).as_bytes())?;
    out.push(b' ')?;
    Ok(())
}

// The operations of a core that completed.
fn put_completed_operations(
    out: &mut Vec<u8>,
    layout: Layout,
    counts: &CoreCounts,
) -> Result<(), AllocError>
    ensures { OnOk result (out.new.items ≡ out.old.items ++ done_text layout counts.now) }
{
    put_named_count(out, layout, b"loads", counts.loads)?;
    put_next_count(out, layout, b"stores", counts.stores)?;
    put_next_count(out, layout, b"swaps", counts.swaps)
}

// Which of them were hits, and the misses by their causes.
fn put_hits_and_misses(
    out: &mut Vec<u8>,
    layout: Layout,
    counts: &CoreCounts,
) -> Result<(), AllocError>
    ensures { OnOk result (out.new.items ≡ out.old.items ++ found_text layout counts.now) }
{
    put_next_count(out, layout, b"hits", counts.hits)?;
    put_next_count(out, layout, b"cold", counts.cold)?;
    put_next_count(out, layout, b"evicted", counts.evicted)?;
    put_next_count(out, layout, b"recalled", counts.recalled)?;
    put_next_count(out, layout, b"ended", counts.ended)?;
    put_next_count(out, layout, b"shared", counts.shared)
}

// What became of its copies, the deliveries to it that were held or dropped, and its time.
fn put_copy_counts(out: &mut Vec<u8>, layout: Layout, counts: &CoreCounts) -> Result<(), AllocError>
    ensures { OnOk result (out.new.items ≡ out.old.items ++ copies_text layout counts.now) }
{
    put_next_count(out, layout, b"evictions", counts.part.evictions)?;
    put_next_count(out, layout, b"returns", counts.returns)?;
    put_next_count(out, layout, b"reloads", counts.reloads)?;
    put_next_count(out, layout, b"held", counts.part.held)?;
    put_next_count(out, layout, b"dropped", counts.part.dropped)?;
    put_next_count(out, layout, b"time", counts.last_time)
}

// A core.
#[tactic(auto, unfolding(crate::specs::CountLines::core_text))]
fn put_core_counts(
    out: &mut Vec<u8>,
    layout: Layout,
    core: usize,
    counts: &CoreCounts,
) -> Result<(), AllocError>
    ensures { OnOk result (out.new.items ≡ out.old.items ++ core_text layout core counts.now) }
{
    put_part_opening(out, layout, b"core ", core)?;
    put_completed_operations(out, layout, counts)?;
    put_hits_and_misses(out, layout, counts)?;
    put_copy_counts(out, layout, counts)?;
    put_sent_messages(out, layout, &counts.part.sent)?;
    put_by_layout(out, layout, b"\n", b"}")
}

// A bank.
#[tactic(auto, unfolding(crate::specs::CountLines::bank_text))]
fn put_bank_counts(
    out: &mut Vec<u8>,
    layout: Layout,
    bank: usize,
    counts: &PartCounts,
) -> Result<(), AllocError>
    ensures { OnOk result (out.new.items ≡ out.old.items ++ bank_text layout bank counts.now) }
{
    put_part_opening(out, layout, b"bank ", bank)?;
    put_named_count(out, layout, b"evictions", counts.evictions)?;
    put_next_count(out, layout, b"held", counts.held)?;
    put_next_count(out, layout, b"dropped", counts.dropped)?;
    put_sent_messages(out, layout, &counts.sent)?;
    put_by_layout(out, layout, b"\n", b"}")
}

// The events, and the deliveries that were held or dropped.
fn put_event_totals(
    out: &mut Vec<u8>,
    layout: Layout,
    counts: &EventCounts,
) -> Result<(), AllocError>
    ensures { OnOk result (out.new.items ≡ out.old.items ++ totals_text layout counts.now) }
{
    put_by_layout(out, layout, b"", b"\"")?;
    put_named_count(out, layout, b"events", counts.events())?;
    put_by_layout(out, layout, b"\n", b"")?;
    put_labelled_number(out, layout, b"held", u128::from(counts.held()))?;
    put_labelled_number(out, layout, b"dropped", u128::from(counts.dropped()))
}

fn put_counts_of_cores(
    out: &mut Vec<u8>,
    layout: Layout,
    cores: &[CoreCounts],
) -> Result<(), AllocError>
    ensures { OnOk result (out.new.items ≡ out.old.items ++ cores_text layout cores.now) }
{
    put_by_layout(out, layout, b"", b",\"cores\":[")?;
    for core in 0..cores.len() {
        put_item_separator(out, layout, core == 0)?;
        put_core_counts(out, layout, core, &cores[core])?;
    }
    put_list_closing(out, layout)
}

fn put_counts_of_banks(
    out: &mut Vec<u8>,
    layout: Layout,
    banks: &[PartCounts],
) -> Result<(), AllocError>
    ensures { OnOk result (out.new.items ≡ out.old.items ++ banks_text layout banks.now) }
{
    put_by_layout(out, layout, b"", b",\"banks\":[")?;
    for bank in 0..banks.len() {
        put_item_separator(out, layout, bank == 0)?;
        put_bank_counts(out, layout, bank, &banks[bank])?;
    }
    put_list_closing(out, layout)
}

// All that is counted.
#[tactic(auto, unfolding(crate::specs::CountLines::counted_text))]
fn put_all_counts(out: &mut Vec<u8>, layout: Layout, counts: &EventCounts) -> Result<(), AllocError>
    ensures { OnOk result (out.new.items ≡ out.old.items ++ counted_text layout counts.now) }
{
    put_event_totals(out, layout, counts)?;
    put_counts_of_cores(out, layout, counts.cores())?;
    put_counts_of_banks(out, layout, counts.banks())
}

// How many operations have completed at a row, if there is one each `every`.
fn operations_at_row(every: u64, row: usize) -> u128
    requires { row < 2 ^ 64 - 1 }
    ensures { result ≡ every * (row + 1) }
{
    u128::from(every) * (row as u128 + 1)
}

// What a row begins with.
#[tactic(auto, unfolding(crate::specs::CountLines::row_opening))]
fn put_row_opening(out: &mut Vec<u8>, layout: Layout) -> Result<(), AllocError>
    ensures { OnOk result (out.new.items ≡ out.old.items ++ row_opening layout) }
{
    put_by_layout(out, layout, b"row ", b"{\"completed\":")
}

// Before the counts of a row: how many operations had completed.
#[tactic(auto, unfolding(crate::specs::CountLines::completed_text))]
fn put_operations_at_row(
    out: &mut Vec<u8>,
    layout: Layout,
    completed: u128,
) -> Result<(), AllocError>
    ensures { OnOk result (out.new.items ≡ out.old.items ++ completed_text layout completed) }
{
    let mut digits = Buffer::new();
    put_row_opening(out, layout)?;
    out.extend_from_slice(digits.format(completed).as_bytes())?;
    put_by_layout(out, layout, b"\n", b",")
}

// A row: how many operations had completed, and what was counted by then.
#[tactic(auto, unfolding(crate::specs::CountLines::row_text))]
fn put_count_row(
    out: &mut Vec<u8>,
    layout: Layout,
    every: u64,
    row: usize,
    counts: &EventCounts,
) -> Result<(), AllocError>
    requires { row < 2 ^ 64 - 1 }
    ensures { OnOk result (out.new.items ≡
        out.old.items ++ row_text layout every row counts.now) }
{
    put_operations_at_row(out, layout, operations_at_row(every, row))?;
    put_all_counts(out, layout, counts)?;
    put_by_layout(out, layout, b"", b"}")
}

// The rows, one each `every` operations.
#[tactic(auto, unfolding(crate::specs::CountLines::rows_text))]
fn put_count_rows(
    out: &mut Vec<u8>,
    layout: Layout,
    every: u64,
    rows: &[EventCounts],
) -> Result<(), AllocError>
    ensures { OnOk result (out.new.items ≡
        out.old.items ++ rows_text layout (Some every) rows.now) }
{
    put_by_layout(out, layout, b"", b",\"rows\":[")?;
    for row in 0..rows.len() {
        put_item_separator(out, layout, row == 0)?;
        put_count_row(out, layout, every, row, &rows[row])?;
    }
    put_list_closing(out, layout)
}

// The rows, if there are to be any.
#[tactic(auto, unfolding(crate::specs::CountLines::rows_text))]
fn put_rows_if_asked(
    out: &mut Vec<u8>,
    layout: Layout,
    every: Option<u64>,
    rows: &[EventCounts],
) -> Result<(), AllocError>
    ensures { OnOk result (out.new.items ≡ out.old.items ++ rows_text layout every rows.now) }
{
    match every {
        Some(every) => put_count_rows(out, layout, every, rows),
        None => Ok(()),
    }
}

// What the counts at the end begin with.
#[tactic(auto, unfolding(crate::specs::CountLines::end_opening))]
fn put_end_counts_opening(out: &mut Vec<u8>, layout: Layout) -> Result<(), AllocError>
    ensures { OnOk result (out.new.items ≡ out.old.items ++ end_opening layout) }
{
    put_by_layout(out, layout, b"", b",\"counts\":{")
}

// The counts at the end.
#[tactic(auto, unfolding(crate::specs::CountLines::end_counts_text))]
fn put_end_counts(out: &mut Vec<u8>, layout: Layout, counts: &EventCounts) -> Result<(), AllocError>
    ensures { OnOk result (out.new.items ≡ out.old.items ++ end_counts_text layout counts.now) }
{
    put_end_counts_opening(out, layout)?;
    put_all_counts(out, layout, counts)?;
    put_by_layout(out, layout, b"", b"}")
}

/// What a run did, in numbers, behind its report: if there is a row each `every` operations, each row with the counts
/// at that point, and then the counts at the end. They are the events, the deliveries that were held and those that
/// were dropped, and what was counted of each core and each bank, with the messages by kind that were sent by it or to
/// it (docs/COUNTS.md). If allocation fails, some of it may be in the text.
#[tactic(auto, unfolding(crate::specs::CountLines::event_counts_text))]
pub fn put_event_counts(
    out: &mut Vec<u8>,
    layout: Layout,
    every: Option<u64>,
    rows: &[EventCounts],
    counts: &EventCounts,
) -> Result<(), AllocError>
    ensures { OnOk result (out.new.items ≡
        out.old.items ++ event_counts_text layout every rows.now counts.now) }
{
    put_rows_if_asked(out, layout, every, rows)?;
    put_end_counts(out, layout, counts)
}
