//! The memory time.
ghost use Rattle.std.specs.Prelude.{◌≡◌, max};

use std::marker::Model;

/// The time from which a line that comes from DRAM is valid: it never falls. Contracts see the time.
#[derive(Clone, Copy, Debug, PartialEq, Eq)]
pub struct MemoryTime {
    time: u64,
}

impl Model for MemoryTime {
    ghost use Rattle.std.specs.Prelude.{ℕ};

    ghost Value = { ℕ };

    ghost view = { λ memory. memory.time };

    ghost inverse = { λ n. record { time = n } };
}

impl MemoryTime {
    /// A memory time that begins at this time.
    pub fn new(time: u64) -> MemoryTime
        ensures { result ≡ time }
    {
        MemoryTime { time }
    }

    /// Raises the memory time to the time up to which a line that leaves was leased, if that is greater.
    pub fn raise(&mut self, rts: u64)
        ensures { self.new ≡ max self.old rts }
    {
        self.time = self.time.max(rts);
    }

    /// The memory time.
    pub fn now(&self) -> u64
        ensures { result ≡ self.now }
    {
        self.time
    }
}
