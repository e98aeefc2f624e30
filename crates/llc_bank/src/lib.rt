//! A bank of the shared cache: its entries, its memory time and what it does with each message. docs/PROTOCOL.md has
//! its table.
#![tactic(auto)]

pub mod bank;
mod choice;
pub mod config;
pub mod decision;
pub mod entry;
pub mod laws;

pub use bank::Bank;
pub use config::BankConfig;
pub use entry::{Entry, Evict, EvictError};
pub use laws::{
    evictions_raise_time, fills_at_memory_time, grants_unowned_lines, loads_absent_lines,
    readers_are_leased, words_go_to_other_versions,
};
