//! What one line of a trace, of a list of records or of an opening says, or why it is refused.
#![tactic(auto)]

mod errors;
mod forms;
pub mod laws;
mod lines;
mod openings;
mod reads;
mod records;
mod steps;
mod traces;
mod words;

pub use errors::{Kind, TraceError};
pub use forms::form_line;
pub use openings::opening_line;
pub use programs::Step;
pub use records::record_line;
pub use steps::Form;
pub use traces::trace_line;
