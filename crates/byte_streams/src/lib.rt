//! Where bytes come from and where they go, with a count of failures that only contracts see.
#![tactic(auto)]

mod adapters;
mod device;
mod tally;
mod whole;

pub use adapters::{FromRead, ToWrite};
pub use device::{DeviceError, Sink, Source};
pub use whole::{ReadError, read_all, write_all};
