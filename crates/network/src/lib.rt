//! The messages of the protocol, those in flight by their numbers, and the parts that they are delivered to.
//! docs/PROTOCOL.md states what each message says.
#![tactic(auto)]

pub mod counts;
mod criteria;
pub mod division;
pub mod endpoints;
pub mod in_flight;
pub mod laws;
mod linked;
mod links;
pub mod message;
pub mod numbers;
pub mod part;
mod slots;
pub mod words;

pub use counts::Counts;
pub use division::{quotient, remainder};
pub use endpoints::has_endpoints;
pub use in_flight::{InFlight, SendError};
pub use message::{Body, Message, Node, TimedLine};
pub use numbers::{LineNo, MsgNo};
pub use part::{Part, PartError, Reaction};
pub use words::Words;
