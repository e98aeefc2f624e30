//! The result of an attempt to take a message.

/// What `take` answers.
#[derive(Clone, Copy, Debug, PartialEq, Eq)]
pub enum Take {
    /// A message is in the hand.
    Taken,
    /// All slots that come in were found empty.
    Nothing,
    /// A message was already in the hand, so no slot was looked at.
    HandFull,
}
