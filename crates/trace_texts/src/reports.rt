//! The text of a trace's run, part by part.

ghost use Rattle.std.specs.Prelude.{◌≡◌, ◌++◌, OnOk, IfOk};
ghost use Rattle.std.specs.FinMap.{empty};
ghost use Rattle.physiological_order.specs.Faults.{IsVerdict};
ghost use Rattle.physiological_order.specs.Order.{flat, Legal};
ghost use Rattle.report_lines.specs.Layouts.{closing};
ghost use Rattle.trace_reader.specs.Steps.{trace_cores, trace_ops};
ghost use Rattle.trace_texts.specs.Reports.{end_name, is_load_op, is_store, is_swap};
ghost use Rattle.trace_texts.specs.Reports.{kinds_of, loads_among, stores_among, swaps_among};
ghost use Rattle.trace_texts.specs.Reports.{kinds_text, told_text, trace_end_text, trace_text};
ghost use Rattle.trace_texts.specs.Reports.{words_text};

use crate::verdicts::put_order_verdict;
use network::Counts;
use physiological_order::{Memory, Op, Record, Verdict, WordAddr, check};
use programs::End;
use report_lines::{
    Layout, put_by_layout, put_item_separator, put_labelled_number, put_labelled_word,
    put_memory_word, put_message_counts, put_report_closing, put_report_opening,
};
use std::alloc::{AllocError, Global};
use trace_reader::Trace;

/// What the run of a trace came to, beside its records and the values that it left.
#[derive(Clone, Copy, Debug)]
pub struct TraceEnd {
    /// How many operations the machine was issued, over all cores.
    pub issued: u128,
    pub end: End,
    /// How many renewals, upgrades, flushes and write-backs were sent.
    pub counts: Counts,
    /// How many of the records are loads of a value that was overwritten by a smaller completion number at a greater
    /// time.
    pub stale: u64,
}

/// How many operations completed, and how many of them are loads, stores and swaps.
#[derive(Clone, Copy, Debug)]
pub struct Kinds {
    pub completed: usize,
    pub loads: usize,
    pub stores: usize,
    pub swaps: usize,
}

impl Kinds {
    /// Those of the operations of records.
    pub fn of(records: &[Record]) -> Kinds
        ensures { result ≡ kinds_of records.now }
    {
        Kinds {
            completed: records.len(),
            loads: count_loads(records),
            stores: count_stores(records),
            swaps: count_swaps(records),
        }
    }
}

// How a run ended, in a word.
fn end_name(end: End) -> &'static [u8]
    ensures { result.now ≡ end_name end }
{
    match end {
        End::AllDone => b"all-done",
        End::Stalled => b"stalled",
        End::TurnsUsed => b"limit",
        End::Exhausted => b"exhausted",
        End::NoMemory => b"memory",
    }
}

fn is_load(op: Op) -> bool
    ensures { result ≡ is_load_op op }
{
    matches!(op, Op::Load(_))
}

fn count_loads(records: &[Record]) -> usize
    ensures { result ≡ loads_among records.now }
{
    records.iter().filter(|record| is_load(record.op)).count()
}

fn is_store(op: Op) -> bool
    ensures { result ≡ is_store op }
{
    matches!(op, Op::Store(_, _))
}

fn count_stores(records: &[Record]) -> usize
    ensures { result ≡ stores_among records.now }
{
    records.iter().filter(|record| is_store(record.op)).count()
}

fn is_swap(op: Op) -> bool
    ensures { result ≡ is_swap op }
{
    matches!(op, Op::Swap(_, _))
}

fn count_swaps(records: &[Record]) -> usize
    ensures { result ≡ swaps_among records.now }
{
    records.iter().filter(|record| is_swap(record.op)).count()
}

// The cores, how many operations were issued and completed, and how the run ended.
fn put_run_end(
    out: &mut Vec<u8>,
    layout: Layout,
    cores: u32,
    run: &TraceEnd,
    completed: usize,
) -> Result<(), AllocError>
    ensures { OnOk result (out.new.items ≡ out.old.items ++ trace_end_text layout cores run.now completed) }
{
    put_labelled_number(out, layout, b"cores", u128::from(cores))?;
    put_labelled_number(out, layout, b"issued", run.issued)?;
    put_labelled_number(out, layout, b"completed", completed as u128)?;
    put_labelled_word(out, layout, b"end", end_name(run.end))
}

// How many loads, stores and swaps there are among the completed operations.
fn put_operation_kinds(out: &mut Vec<u8>, layout: Layout, done: &Kinds) -> Result<(), AllocError>
    ensures { OnOk result (out.new.items ≡ out.old.items ++ kinds_text layout done.now) }
{
    put_labelled_number(out, layout, b"loads", done.loads as u128)?;
    put_labelled_number(out, layout, b"stores", done.stores as u128)?;
    put_labelled_number(out, layout, b"swaps", done.swaps as u128)
}

// Each word with its value, in order.
fn put_word_values(
    out: &mut Vec<u8>,
    layout: Layout,
    values: &[(WordAddr, u64)],
) -> Result<(), AllocError>
    ensures { OnOk result (out.new.items ≡ out.old.items ++ words_text layout values.now) }
{
    put_by_layout(out, layout, b"", b",\"words\":{")?;
    for at in 0..values.len() {
        put_item_separator(out, layout, at == 0)?;
        let (word, value) = values[at];
        put_memory_word(out, layout, word, value)?;
    }
    put_by_layout(out, layout, b"", b"}")
}

/// The text that reports on the run of a trace that left these records, by rising number, and these values of the
/// words that the trace names, in lines that end with a line feed or as one JSON object (docs/TEXTS.md). Its order line
/// has the verdict of a check of the records, for what the trace issues over a memory of zeros; the trace's lists go
/// into that check.
pub fn trace_text(
    alloc: Global,
    layout: Layout,
    trace: Trace,
    run: &TraceEnd,
    records: &[Record],
    values: &[(WordAddr, u64)],
) -> Result<Vec<u8>, AllocError>
    ensures { IfOk result (λ text. (verdict : Verdict) ×
        IsVerdict (flat empty) (trace_ops trace) records.now verdict ×
        (text.items ≡ trace_text layout (trace_cores trace) run.now verdict records.now values.now
        ++ closing layout)) }
{
    let cores = trace.cores();
    let issued = trace.into_issued()?;
    let verdict = check(alloc, &Memory::new(alloc), &issued, records)?;
    let done = Kinds::of(records);
    let mut text = report_with_verdict(alloc, layout, cores, run, verdict, &done, values)?;
    put_report_closing(&mut text, layout)?;
    Ok(text)
}

/// What `trace_text` answers of records that are legal, without a check of them, and without what closes an object:
/// what the run did, in numbers, may stand in front of that (`put_event_counts`, and `put_report_closing` of
/// report_lines).
pub fn legal_trace_text(
    alloc: Global,
    layout: Layout,
    trace: &Trace,
    run: &TraceEnd,
    records: &[Record],
    values: &[(WordAddr, u64)],
) -> Result<Vec<u8>, AllocError>
    requires { Legal (flat empty) (trace_ops trace.now) records.now }
    ensures { IfOk result (λ text. text.items ≡
        trace_text layout (trace_cores trace.now) run.now Verdict.Legal records.now values.now) }
{
    let done = Kinds::of(records);
    told_trace_text(alloc, layout, trace.cores(), run, &done, values)
}

/// What `legal_trace_text` answers of legal records of which no more is known than these numbers, for a trace of so
/// many cores.
pub fn told_trace_text(
    alloc: Global,
    layout: Layout,
    cores: u32,
    run: &TraceEnd,
    done: &Kinds,
    values: &[(WordAddr, u64)],
) -> Result<Vec<u8>, AllocError>
    ensures { IfOk result (λ text.
        text.items ≡ told_text layout cores run.now Verdict.Legal done.now values.now) }
{
    report_with_verdict(alloc, layout, cores, run, Verdict::Legal, done, values)
}

// The report without what closes it, with this verdict on the records.
#[tactic(auto, unfolding(crate::specs::Reports::told_text))]
fn report_with_verdict(
    alloc: Global,
    layout: Layout,
    cores: u32,
    run: &TraceEnd,
    verdict: Verdict,
    done: &Kinds,
    values: &[(WordAddr, u64)],
) -> Result<Vec<u8>, AllocError>
    ensures { IfOk result (λ text.
        text.items ≡ told_text layout cores run.now verdict done.now values.now) }
{
    let mut out = Vec::new(alloc);
    put_report_opening(&mut out, layout, b"trace")?;
    put_run_end(&mut out, layout, cores, run, done.completed)?;
    put_operation_kinds(&mut out, layout, done)?;
    put_message_counts(&mut out, layout, run.counts)?;
    put_labelled_number(&mut out, layout, b"stale-hits", u128::from(run.stale))?;
    put_order_verdict(&mut out, layout, verdict)?;
    put_word_values(&mut out, layout, values)?;
    Ok(out)
}
