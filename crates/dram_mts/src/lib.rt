//! The DRAM behind each bank, and the memory time: the greatest time up to which a line was leased when it left the
//! bank. docs/PROTOCOL.md states how they answer.
#![tactic(auto)]

pub mod dram;
pub mod memory_time;

pub use dram::Dram;
pub use memory_time::MemoryTime;
