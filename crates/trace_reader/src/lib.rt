//! Reads the texts of traces, of records and of openings from a source of bytes.
#![tactic(auto)]

mod blocks;
pub mod laws;
mod limits;
mod next_lines;
mod opening_texts;
mod packed_steps;
mod queues;
mod read_ahead;
mod record_texts;
mod step_blocks;
mod step_streams;
mod trace_texts;
mod traces;
mod whole_texts;

pub use byte_streams::{FromRead, Source};
pub use limits::{MOST_BYTES, MOST_LINES, MOST_NUMBERED};
pub use opening_texts::read_opening;
pub use queues::StepQueue;
pub use read_ahead::{AheadError, ReadAhead};
pub use record_texts::read_records;
pub use step_streams::StepStream;
pub use trace_lines::{Form, Kind, Step, TraceError};
pub use trace_texts::read;
pub use traces::Trace;
