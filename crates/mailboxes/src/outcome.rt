//! What an attempt at the open operation of a core's seat does.
use machine_table::Answer;
use network::Message;
use physiological_order::Op;

/// An operation that a core completed: its place, what it received and its time.
#[derive(Drop)]
pub struct Completion {
    pub op: Op,
    pub place: u32,
    pub received: Option<u64>,
    pub ts: u64,
}

/// What an attempt does.
#[derive(Drop)]
pub enum Outcome {
    /// Nothing changes.
    Keeps(Answer),
    /// A sum of times does not fit.
    Exhausts,
    /// The operation needs this request.
    Requests(Message),
    /// The open operation is completed.
    Completes(Completion),
}
