//! How many messages of the counted kinds were sent. docs/PROTOCOL.md states what they mean.
ghost use Rattle.std.specs.Prelude.{◌≡◌, ◌<◌, ◌^◌};
ghost use Rattle.network.specs.Mail.{counted};

use crate::message::Body;

/// How many renewals, upgrades, flushes and write-backs were sent.
#[derive(Clone, Copy, Debug, PartialEq, Eq)]
pub struct Counts {
    pub renewals: u128,
    pub upgrades: u128,
    pub flushes: u128,
    pub write_backs: u128,
}

impl Counts {
    /// Nothing was sent.
    pub fn zeros() -> Counts
        ensures { result ≡ record { renewals = 0; upgrades = 0; flushes = 0; write_backs = 0 } }
    {
        Counts {
            renewals: 0,
            upgrades: 0,
            flushes: 0,
            write_backs: 0,
        }
    }

    /// Counts a message with this body, if its kind is counted. None of the counts has more than 64 bits yet.
    #[inline(always)]
    pub fn count(&mut self, body: &Body)
        requires renewals { self.old.renewals < 2 ^ 64 }
        requires upgrades { self.old.upgrades < 2 ^ 64 }
        requires flushes { self.old.flushes < 2 ^ 64 }
        requires write_backs { self.old.write_backs < 2 ^ 64 }
        ensures { self.new ≡ counted self.old body.now }
    {
        match body {
            Body::RenewRep { .. } => self.renewals += 1,
            Body::UpgradeRep { .. } => self.upgrades += 1,
            Body::FlushRep(_) => self.flushes += 1,
            Body::WbRep(_) => self.write_backs += 1,
            _ => (),
        }
    }
}
