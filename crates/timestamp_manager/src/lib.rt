//! Leases and grants on one line: decisions on its times alone, which allocate nothing.
#![tactic(auto)]

pub mod laws;
pub mod lease;

pub use laws::{returned_leases_reach, shared_leases_cover};
pub use lease::{Exhausted, downgrade, on_exclusive, on_shared, recall_until};
