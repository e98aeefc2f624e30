//! What the seats of a shared machine leave when it is closed, and look-ups there: records, values, counts and owners.
#![tactic(auto)]

mod calls;
mod counts;
mod laws;
mod mail;
mod merging;
mod numbered;
mod outbox;
mod owners;
mod parts;
mod run;
mod slots;
mod values;

pub use merging::merge_core_records;
pub use numbered::{Numbered, has_all_numbers};
pub use outbox::Outbox;
pub use parts::{BankPart, ClosedMachine, CorePart};
pub use run::Run;
pub use slots::take_slot_messages;
