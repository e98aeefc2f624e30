//! Runs and ends of litmus tests, runs of traces, and checks of records, from texts to texts.
ghost use Rattle.std.specs.Prelude.{Some, false};
ghost use Rattle.std.specs.FinMap.{empty};
ghost use Rattle.physiological_order.specs.Order.{flat};
ghost use Rattle.report.specs.Ends.{HasNoEndsInMemory, IsEndsReport};
ghost use Rattle.report.specs.Layouts.{layout_of};
ghost use Rattle.report.specs.Litmus.{HasNoReportInMemory, IsLitmusReport};
ghost use Rattle.report.specs.Openings.{HasNoOpenedReport, IsOpenedReport};
ghost use Rattle.report.specs.Reports.{HasNoTraceReport, IsTraceReport};
ghost use Rattle.report.specs.Verdicts.{HasNoVerdict, IsCheckReport};
ghost use Rattle.report_lines.specs.declared.layout.Layout.TheVariants.{Lines};
ghost use Rattle.tardis_c.specs.Answers.{IsTold};
ghost use Rattle.tardis_c.specs.Options.{ends_options, is_set, litmus_options, trace_options};

use crate::answers::write_result;
use crate::options::{PlainOptions, ends_options, litmus_options, trace_options};
use report::{check_report, ends_report, layout_of, litmus_report, opened_report, trace_report};
use std::alloc::Global;

/// Runs the litmus test that a text is, and puts the report into the buffer.
#[unsafe(no_mangle)]
pub extern "C" fn tardis_c_litmus(
    alloc: Global,
    text: &[u8],
    options: &PlainOptions,
    buffer: &mut [u8],
    long: &mut usize,
) -> u32
    ensures { IsTold (IsLitmusReport (litmus_options options.now) text.now)
        (HasNoReportInMemory (litmus_options options.now) text.now)
        buffer.old buffer.new long.new result }
{
    let came = litmus_report(alloc, text, &litmus_options(options));
    write_result(&came, buffer, long)
}

/// Lists all ends of the litmus test that a text is, and puts the list into the buffer: lines, or a JSON object where
/// `json` isn't 0, and an order that leads there behind each end where `orders` isn't 0. At most `states` states are
/// kept at once.
#[unsafe(no_mangle)]
pub extern "C" fn tardis_c_ends(
    alloc: Global,
    text: &[u8],
    states: u64,
    orders: u32,
    json: u32,
    buffer: &mut [u8],
    long: &mut usize,
) -> u32
    ensures { IsTold (IsEndsReport (ends_options states orders json) text.now)
        (HasNoEndsInMemory (ends_options states orders json) text.now)
        buffer.old buffer.new long.new result }
{
    let came = ends_report(alloc, text, &ends_options(states, orders, json));
    write_result(&came, buffer, long)
}

/// Runs the trace that a text is, and puts the report, or the records, into the buffer.
#[unsafe(no_mangle)]
pub extern "C" fn tardis_c_trace(
    alloc: Global,
    text: &[u8],
    options: &PlainOptions,
    buffer: &mut [u8],
    long: &mut usize,
) -> u32
    ensures { IsTold (IsTraceReport (trace_options options.now) (Some text.now))
        (HasNoTraceReport (trace_options options.now) (Some text.now))
        buffer.old buffer.new long.new result }
{
    let came = trace_report(alloc, text, &trace_options(options));
    write_result(&came, buffer, long)
}

/// Checks records against a trace over a memory of zeros, both as texts, and puts the line of the verdict into the
/// buffer.
#[unsafe(no_mangle)]
pub extern "C" fn tardis_c_check(
    alloc: Global,
    trace: &[u8],
    records: &[u8],
    buffer: &mut [u8],
    long: &mut usize,
) -> u32
    ensures { IsTold (IsCheckReport (flat empty) false Lines (Some trace.now) (Some records.now))
        (HasNoVerdict (Some trace.now) (Some records.now))
        buffer.old buffer.new long.new result }
{
    let came = check_report(alloc, trace, records);
    write_result(&came, buffer, long)
}

/// Checks records against a trace over the memory that an opening gives, all three as texts, and puts the verdict into
/// the buffer: a line, or a JSON object where `json` isn't 0. Where `complete` isn't 0, each operation of the trace is
/// to have its record.
#[unsafe(no_mangle)]
pub extern "C" fn tardis_c_check_opened(
    alloc: Global,
    opening: &[u8],
    trace: &[u8],
    records: &[u8],
    complete: u32,
    json: u32,
    buffer: &mut [u8],
    long: &mut usize,
) -> u32
    ensures { IsTold (IsOpenedReport (is_set complete) (layout_of (is_set json))
        opening.now trace.now records.now)
        (HasNoOpenedReport opening.now trace.now records.now)
        buffer.old buffer.new long.new result }
{
    let layout = layout_of(json > 0);
    let came = opened_report(alloc, opening, trace, records, complete > 0, layout);
    write_result(&came, buffer, long)
}
