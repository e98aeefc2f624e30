//! What a run does, in numbers: each answered event is counted as the run goes. docs/COUNTS.md says what is counted.
#![tactic(auto)]

pub mod cause;
pub mod counter;
pub mod event_counts;
pub mod kind_counts;
pub mod laws;
mod lost_copies;
pub mod part_counts;
mod row_list;
mod watching;

pub use cause::Cause;
pub use counter::Counter;
pub use event_counts::EventCounts;
pub use kind_counts::KindCounts;
pub use part_counts::{CoreCounts, PartCounts};
