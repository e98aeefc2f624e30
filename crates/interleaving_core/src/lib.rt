//! The machine: any list of events, answered one by one as the machine's table says, under the theorem.
//! docs/PROTOCOL.md has the order of refusals.
#![tactic(auto)]

mod core_masks;
mod deliveries;
pub mod histories;
mod kept_orders;
pub mod laws;
mod line_words;
mod look_ups;
mod machine_state;
mod op_list;
mod opening;
mod operations;
pub mod plain_answer;
mod reactions;
mod records;
mod reopening;
mod steps;
pub mod system;
pub mod told_history;
mod unkept;

pub use core_masks::with_bit;
pub use histories::{History, KeptHistory};
pub use machine_table::{Answer, Config, Counts, Event, OpenError, Refusal};
pub use network::{Body, LineNo, Message, MsgNo, Node, TimedLine, Words};
pub use op_list::OpList;
pub use plain_answer::PlainAnswer;
pub use system::System;
pub use told_history::ToldHistory;
