//! What a part answers to a message, and what serving answers.

/// Why no message was served. Nothing changed. The rules are those of docs/SEATS.md.
#[derive(Clone, Copy, Debug, PartialEq, Eq)]
pub enum Refusal {
    /// There is no place for a message that would be sent or held.
    Full,
    /// Allocation failed.
    NoMemory,
    /// A sum of times does not fit 64 bits.
    Exhausted,
}

/// What a part did with a message. A message that it sends to its own seat is in the answer, and goes to the end of
/// the held list.
#[derive(Drop)]
pub enum Answer<T> {
    /// The message is consumed, and this one is sent, if any.
    Delivered(Option<T>),
    /// The message is consumed and has no effect.
    Dropped,
    /// The message has to wait, and this one is sent on its behalf, if any.
    Started(Option<T>),
    /// The message has to wait, and nothing changed.
    Held,
    /// The message wasn't delivered, and nothing changed.
    Refused(Refusal),
}

/// What happened to the message that was served.
#[derive(Clone, Copy, Debug, PartialEq, Eq)]
pub enum Served {
    /// It is consumed.
    Delivered,
    /// It is consumed and had no effect.
    Dropped,
    /// It is in the held list, and the part asked for what it needs.
    Started,
    /// It is in the held list, moved there from the hand; or, with an empty hand, all messages are still held.
    Held,
    /// There was no message.
    Nothing,
}
