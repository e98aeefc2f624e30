//! The texts that are written of traces: records, as the reader of records reads them back, the report on a run, what
//! it did in numbers, and a verdict.
#![tactic(auto)]

mod count_lines;
mod fields;
pub mod laws;
mod records;
mod reports;
mod verdicts;

pub use count_lines::put_event_counts;
pub use records::records_text;
pub use reports::{Kinds, TraceEnd, legal_trace_text, told_trace_text, trace_text};
pub use verdicts::{check_text, lack_text};
