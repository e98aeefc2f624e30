//! What workers tell each other: how many programs are finished, and that some seat has stopped, without a lock.
#![tactic(auto)]

mod closing;
mod opening;
mod signaler;
mod signals;
mod steps;
mod words;

pub use opening::open_signals;
pub use signaler::Signaler;
pub use signals::Signals;
pub use words::{Look, Said, TooMany, Voice};
