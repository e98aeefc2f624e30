//! What is written is read back, and the counts of a report add up.

ghost use Rattle.std.specs.Prelude.{◌≡◌, ◌≤◌, ◌+◌, List, Ok, length};
ghost use Rattle.physiological_order.specs.declared.operation.Record.{Record};
ghost use Rattle.trace_texts.specs.Records.{AreWritable, records_text};
ghost use Rattle.trace_texts.specs.Reports.{loads_among, stores_among, swaps_among};
ghost use Rattle.trace_reader.specs.Reading.{records_at};
ghost use Rattle.trace_reader.specs.declared.limits.TheConstants.{MOST_LINES};

/// The text of these records is read as these records, if the grammar has them and they are no more than a text has
/// lines. The function does nothing: its contract is the law.
pub fn written_records_are_read_back()
    ensures { (rs : List Record) → AreWritable rs → length rs ≤ MOST_LINES →
        records_at (records_text rs) ≡ Ok rs }
{}

/// The loads, stores and swaps that a report counts are as many as its records. The function does nothing: its contract
/// is the law.
pub fn counts_add_up()
    ensures { (rs : List Record) →
        loads_among rs + stores_among rs + swaps_among rs ≡ length rs }
{}
