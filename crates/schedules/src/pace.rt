//! Where a run that goes on in pieces stands.
ghost use Rattle.std.specs.Prelude.{◌≡◌};
ghost use Rattle.schedules.specs.Paces.{paced};

use crate::policy::Policy;
use crate::seed::Seeds;
use std::marker::Model;

/// Where a run that goes on in pieces stands between two of them (`run_on`): its policy, and of a seeded run the words
/// that it has yet to draw. Contracts see a `Paced`, which is `paced policy made` after `made` turns.
#[derive(Drop)]
pub struct Pace {
    pub(crate) policy: Policy,
    pub(crate) seeds: Seeds,
}

impl Model for Pace {
    ghost use Rattle.schedules.specs.Paces.{Paced};

    ghost Value = { Paced };

    ghost view = { λ a. record { policy = a.policy; generator = a.seeds } };
}

impl Pace {
    /// Before the first turn.
    pub fn new(policy: Policy) -> Pace
        ensures { result ≡ paced policy 0 }
    {
        let seed = match policy {
            Policy::Seed(seed) => seed,
            _ => 0,
        };
        Pace {
            policy,
            seeds: Seeds::new(seed),
        }
    }
}
