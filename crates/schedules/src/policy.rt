//! Which schedule a run follows.
ghost use Rattle.std.specs.Prelude.{◌≡◌};
ghost use Rattle.schedules.specs.Batches.{policy_of_run};

/// Which schedule a run follows (docs/SCHEDULES.md).
#[derive(Clone, Copy, Debug, PartialEq, Eq)]
pub enum Policy {
    /// Rounds.
    Rounds,
    /// Fair rounds.
    FairRounds,
    /// The seeded schedule of this seed.
    Seed(u64),
}

impl Policy {
    /// Which schedule run `i` of a batch follows, counted from 0, if the first run follows this one: rounds, fair
    /// or not as they are, or the seed plus `i`, modulo 2^64.
    pub fn of_run(self, i: u64) -> Policy
        ensures { result ≡ policy_of_run self i }
    {
        match self {
            Policy::Rounds => Policy::Rounds,
            Policy::FairRounds => Policy::FairRounds,
            Policy::Seed(seed) => Policy::Seed(seed.wrapping_add(i)),
        }
    }
}
