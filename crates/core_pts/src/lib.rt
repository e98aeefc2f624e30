//! A core: its clock, its private cache and its open operation. docs/PROTOCOL.md has its table.
#![tactic(auto)]

pub mod attempt;
pub mod config;
pub mod core_state;
pub mod decision;
mod deliver;
pub mod laws;
mod on_copy;

pub use attempt::{Attempt, IssueError};
pub use config::CoreConfig;
pub use core_state::Core;
pub use laws::{
    completed_on_a_copy, idle_core_issues, nothing_completed_keeps, open_line_stays,
    requests_name_versions, time_never_falls, writes_come_after_reads,
};
