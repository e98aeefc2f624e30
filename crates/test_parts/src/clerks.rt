//! A part for tests: each message says by its number what the part does with it.
use inbox::{Answer, Receiver, Refusal};

/// A part to which even messages wait. An odd one is delivered, and sends the even one before it to the held list.
#[derive(Drop)]
pub struct Clerk {
    pub last: u64,
}

impl Receiver<u64> for Clerk {
    ghost use Rattle.std.specs.Prelude.{true, false};
    ghost use Rattle.test_parts.specs.Clerks.{clerk_table};

    ghost has_case = { λ _ _. true };

    ghost table = { clerk_table };

    ghost takes_memory = { λ _ _. false };

    fn deliver(&mut self, message: &u64, places: u32) -> Answer<u64> {
        if *message % 2 == 0 {
            return Answer::Held;
        }
        if places < 1 {
            return Answer::Refused(Refusal::Full);
        }
        self.last = *message;
        Answer::Delivered(Some(*message - 1))
    }
}
