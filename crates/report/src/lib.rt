//! Goes from a text to the report on it. A litmus test or a trace is run, or all ends of a test are listed, or records
//! of any origin are checked against a trace.
#![tactic(auto)]

mod checks;
mod complete;
mod ends;
mod every_text;
mod in_memory;
pub mod laws;
mod litmus;
mod one_run;
mod openings;
mod outputs;
mod progress;
mod reports;
mod sources;
mod stream_parts;
mod streams;
mod texts;
mod trace_programs;
mod words;

pub use byte_streams::{FromRead, Sink, Source, ToWrite};
pub use checks::{check_history, run_check};
pub use ends::{ends_report, run_ends};
pub use in_memory::{check_report, litmus_report, opened_report, trace_report};
pub use litmus::run_litmus;
pub use openings::opening_of;
pub use outputs::{Report, layout_of};
pub use report_lines::Layout;
pub use report_text::litmus_text;
pub use reports::run_trace;
pub use run_options::{
    CheckOptions, EndsOptions, LitmusOptions, MachineOptions, RunOptions, Schedule, StreamOptions,
    TraceOptions,
};
pub use run_results::{Done, RunError, exit_status};
pub use streams::run_stream;
pub use trace_texts::{TraceEnd, records_text, trace_text};
