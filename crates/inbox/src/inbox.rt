//! The messages that came in at a seat: one in the hand, and those that are held.
ghost use Rattle.std.specs.Prelude.{◌≡◌, ◌-◌, ◌<◌, ◌≤◌, ◌++◌, ◌∷◌, [], length};
ghost use Rattle.std.specs.Prelude.{IfOk, Some, None, option_copied, slice_get};
ghost use Rattle.std.specs.List.{find};
ghost use Rattle.inbox.specs.Inboxes.{inbox};

use crate::message_test::MessageTest;
use crate::queue::Queue;
use std::alloc::{AllocError, Global};
use std::marker::Model;

/// The messages that came in at a seat, by docs/SEATS.md: the one in the hand, and up to 256 that are held, the oldest
/// first. Contracts see both.
#[derive(Drop)]
pub struct Inbox<T> {
    pub(crate) hand: Option<T>,
    pub(crate) held: Queue<T>,
}

impl<T> Model for Inbox<T> {
    ghost use Rattle.inbox.specs.Inboxes.{InboxState, inbox, inbox_code};
    ghost use Rattle.inbox.specs.Queues.{values_of};

    ghost Value = { InboxState T };

    ghost coded = { inbox_code T.code };

    ghost view = { λ b. inbox b.hand (values_of b.held) };
}

impl<T> Inbox<T> {
    /// An inbox without a message. All its memory, for 256 held messages, is allocated here.
    pub fn new(alloc: Global) -> Result<Inbox<T>, AllocError>
        ensures { IfOk result (λ b. b ≡ inbox None []) }
    {
        let held = Queue::new(alloc)?;
        Ok(Inbox { hand: None, held })
    }

    /// The message in the hand, if there is one.
    pub fn hand(&self) -> Option<&T>
        ensures { option_copied result ≡ self.now.hand }
    {
        self.hand.as_ref()
    }

    /// The held message at an index, from 0 for the oldest, if there is one.
    pub fn held(&self, at: u32) -> Option<&T>
        ensures { option_copied result ≡ slice_get self.now.held at }
    {
        let mut next = self.held.front();
        for _ in 0..at {
            let Some(cell) = next else {
                return None;
            };
            next = self.held.next(cell);
        }
        let Some(cell) = next else {
            return None;
        };
        Some(self.held.get(cell))
    }

    /// The oldest held message that passes a test, if one does. The call looks at each held message once, at most.
    pub fn first_held<P: MessageTest<T>>(&self, test: &P) -> Option<&T>
        ensures { option_copied result ≡ find (P.passes test.now) self.now.held }
    {
        let mut next = self.held.front();
        for _ in 0..self.held.len() {
            let Some(cell) = next else {
                return None;
            };
            let message = self.held.get(cell);
            if test.passes(message) {
                return Some(message);
            }
            next = self.held.next(cell);
        }
        None
    }

    /// How many more messages the held list has places for, of 256.
    pub fn places(&self) -> u32
        ensures value { result ≡ 256 - length self.now.held }
        ensures within { length self.now.held ≤ 256 }
    {
        self.held.places()
    }

    /// Puts a message into the hand, which is empty.
    pub fn fill_hand(&mut self, message: T)
    where
        T: Drop,
        requires { self.old.hand ≡ None }
        ensures { self.new ≡ inbox (Some message) self.old.held }
    {
        self.hand = Some(message);
    }

    /// Puts a message at the end of the held list, which has a place.
    pub fn hold(&mut self, message: T)
        requires { length self.old.held < 256 }
        ensures { self.new ≡ inbox self.old.hand (self.old.held ++ message ∷ []) }
    {
        self.held.push(message);
    }
}
