//! What a signaler says, and what it reads.

/// What one signaler has said: how many programs it finished, and whether a seat of its own has stopped.
#[derive(Clone, Copy, Debug, PartialEq, Eq)]
pub struct Said {
    pub finished: u64,
    pub stops: bool,
}

/// What a seat holds: what it has said, what its last look found, and how many workers there are. Only proofs use it;
/// no value of it is made.
pub struct Voice {
    pub said: Said,
    pub heard: Look,
    pub workers: u64,
}

/// What a look finds: how many programs all signalers have finished, and whether some seat has stopped.
#[derive(Clone, Copy, Debug, PartialEq, Eq)]
pub struct Look {
    pub finished: u64,
    pub is_stopped: bool,
}

/// This signaler has finished 4,294,967,296 programs, and says no more of them.
#[derive(Clone, Copy, Debug, PartialEq, Eq)]
pub struct TooMany;
