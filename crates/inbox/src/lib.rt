//! The messages that came in at a seat, and the order in which they are served. The crate works for any type of
//! message and of part.
#![tactic(auto)]

mod answer;
mod inbox;
pub mod laws;
mod message_test;
mod queue;
mod receiver;
mod serve;

pub use self::inbox::Inbox;
pub use answer::{Answer, Refusal, Served};
pub use message_test::MessageTest;
pub use queue::Queue;
pub use receiver::Receiver;
