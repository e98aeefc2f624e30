//! Histories of a multiprocessor's memory: operations, records of completed ones, and the test whether a list of
//! records is sequentially consistent by its timestamps. docs/ORDER.md states what the crate promises.
#![tactic(auto)]

pub mod arrangement;
pub mod checks;
mod core_lists;
mod lane_places;
pub mod laws;
pub mod memory;
mod merged_lists;
mod number_places;
pub mod operation;
pub mod replays;
pub mod stale;
mod stamps;
pub mod steps;
pub mod verdict;
mod walk;
pub mod word_addr;

pub use arrangement::arrange;
pub use checks::{check, check_counted};
pub use memory::Memory;
pub use operation::{Op, Record};
pub use replays::replay;
pub use stale::{rises_by_number, stale_hits, stale_hits_counted};
pub use steps::Steps;
pub use verdict::Verdict;
pub use word_addr::WordAddr;
