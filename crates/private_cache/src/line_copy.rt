//! A core's copy of a line.

use line_sets::Listed;
use network::{TimedLine, Words};

/// What a core may do with its copy of a line.
#[derive(Clone, Copy, Debug, PartialEq, Eq)]
pub enum CopyState {
    /// Read it up to the end of its lease; other cores may have copies.
    Shared,
    /// Read and write it: the core owns the line.
    Exclusive,
}

/// A core's copy of a line.
#[derive(Clone, Copy, Debug, PartialEq, Eq)]
pub struct LineCopy {
    pub state: CopyState,
    /// The time of the last write: the version of the words.
    pub wts: u64,
    /// The time up to which the words may be read.
    pub rts: u64,
    pub words: Words,
    /// Whether the core wrote the words since it was granted the line.
    pub written: bool,
}

impl LineCopy {
    ghost use Rattle.std.specs.Prelude.{◌≡◌};
    ghost use Rattle.private_cache.specs.CopyTable.{arrived, downgraded, renewed, upgraded};

    /// A copy of a line as it arrives, not written yet.
    pub fn arrived(state: CopyState, timed: TimedLine) -> LineCopy
        ensures { result ≡ arrived state timed }
    {
        LineCopy {
            state,
            wts: timed.wts,
            rts: timed.rts,
            words: timed.words,
            written: false,
        }
    }

    /// The copy, leased up to a time.
    pub fn renewed(&self, rts: u64) -> LineCopy
        ensures { result ≡ renewed rts self.now }
    {
        LineCopy { rts, ..*self }
    }

    /// The copy of a core that owns the line from now on and hasn't written it yet; others may read up to a time.
    pub fn upgraded(&self, rts: u64) -> LineCopy
        ensures { result ≡ upgraded rts self.now }
    {
        LineCopy {
            state: CopyState::Exclusive,
            rts,
            written: false,
            ..*self
        }
    }

    /// The copy of a core that returns the line and keeps reading, up to a time.
    pub fn downgraded(&self, rts: u64) -> LineCopy
        ensures { result ≡ downgraded rts self.now }
    {
        LineCopy {
            state: CopyState::Shared,
            rts,
            written: false,
            ..*self
        }
    }
}

impl Listed for LineCopy {
    ghost use Rattle.std.specs.Prelude.{true};

    ghost is_listed = { λ _. true };

    fn is_listed(&self) -> bool {
        true
    }
}
