//! The parts that messages are delivered to: cores, banks and DRAMs.
ghost use Rattle.std.specs.Prelude.{◌≡◌, Bool, IsTrue, IfOk, OnErr, Option, None, Some, is_some};

use crate::message::{Message, Node};

/// What a part did with a message.
#[derive(Clone, Copy, Debug, PartialEq, Eq)]
pub enum Reaction {
    /// The message is consumed, and this one is sent in answer, if any.
    Done(Option<Message>),
    /// The message is consumed and has no effect.
    Dropped,
    /// The message stays in flight, and nothing changes.
    Held,
    /// The message stays in flight, and this one is sent on its behalf.
    HeldAfter(Message),
}

/// Why a part changed nothing.
#[derive(Clone, Copy, Debug, PartialEq, Eq)]
pub enum PartError {
    /// 1: a sum of times does not fit 64 bits.
    Exhausted,
    /// 2: allocation failed.
    NoMemory,
}

impl PartError {
    ghost use Rattle.network.specs.ErrorNumbers.{part_number};

    /// The error's number, as above.
    pub fn number(self) -> u8
        ensures { result ≡ part_number self }
    {
        match self {
            PartError::Exhausted => 1,
            PartError::NoMemory => 2,
        }
    }
}

/// A part that messages are delivered to.
pub trait Part {
    ghost use Rattle.network.specs.declared.message.Message.{Message};
    ghost use Rattle.network.specs.declared.part.Reaction.{Reaction};
    ghost use Rattle.network.specs.Sends.{sent_by};

    /// Whether the part's table has a case for the message.
    ghost has_case: { Self → Message → Bool };

    /// The part's table: what it does with a message and what it is afterwards, or `None` if a sum does not fit.
    ghost table: { Self → Message → Option (Reaction × Self) };

    /// Whether the part takes memory for the message.
    ghost takes_memory: { Self → Message → Bool };

    /// The node that `deliver` would send a message to, and whether the delivered one stays in flight then; `None` if
    /// it would send nothing.
    fn sends(&self, message: &Message) -> Option<(Node, bool)>
        requires { IsTrue (has_case self.now message.now) }
        ensures { result ≡ sent_by (table self.now message.now) };

    /// Hands the part a message. An error leaves the part as it was; Exhausted takes precedence over NoMemory, which
    /// is answered only if the part would send a message.
    fn deliver(&mut self, message: &Message) -> Result<Reaction, PartError>
        requires { IsTrue (has_case self.old message.now) }
        ensures done { IfOk result (λ reaction. table self.old message.now ≡ Some (
          reaction,
          self.new,
        )) }
        ensures refused { OnErr result (self.new ≡ self.old) }
        ensures exhausted { result ≡ Err PartError.Exhausted → table self.old message.now ≡ None }
        ensures fits { table self.old message.now ≡ None → result ≡ Err PartError.Exhausted }
        ensures wanted { result ≡ Err PartError.NoMemory →
            IsTrue (is_some (sent_by (table self.old message.now))) }
        ensures memory { result ≡ Err PartError.NoMemory →
            IsTrue (takes_memory self.old message.now) };
}
