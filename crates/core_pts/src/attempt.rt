//! What an attempt to complete the open operation answers, and why a core doesn't accept an operation.

/// What an attempt answers.
#[derive(Clone, Copy, Debug, PartialEq, Eq)]
pub enum Attempt {
    /// The operation is completed: what it received, `None` for a store alone, and its timestamp.
    Completed(Option<u64>, u64),
    /// The core needs a request to read, with its time and the version of its copy, if it has one.
    NeedShared(u64, Option<u64>),
    /// The core needs a request to own the line, with the version of its copy, if it has one.
    NeedExclusive(Option<u64>),
    /// The core needs a request, but it has no copy of the line and the line's set is full.
    NoRoom,
    /// A request is out.
    Waiting,
    /// No operation is open.
    Idle,
}

/// Why a core doesn't accept an operation.
#[derive(Clone, Copy, Debug, PartialEq, Eq)]
pub enum IssueError {
    /// 1: an operation is open.
    Busy,
    /// 2: the core was issued 4,294,967,295 operations.
    TooMany,
}

impl IssueError {
    ghost use Rattle.std.specs.Prelude.{◌≡◌};

    /// The error's number.
    pub fn number(self) -> u8
        ensures busy { self ≡ IssueError.Busy → result ≡ 1 }
        ensures too_many { self ≡ IssueError.TooMany → result ≡ 2 }
    {
        match self {
            IssueError::Busy => 1,
            IssueError::TooMany => 2,
        }
    }
}
