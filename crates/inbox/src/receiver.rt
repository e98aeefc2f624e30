//! A part that messages are delivered to.
ghost use Rattle.std.specs.Prelude.{◌≡◌, ◌≤◌, ◌⊎◌, Bool, ℕ, IsTrue, true};
ghost use Rattle.inbox.specs.Serving.{Answers, is_quiet, needs};

use crate::answer::Answer;

/// A part that messages are delivered to, with its means of sending.
pub trait Receiver<T> {
    ghost use Rattle.inbox.specs.declared.answer.Answer.{Answer};

    /// Whether the part has a case for the message.
    ghost has_case: { Self → T → Bool };

    /// What the part answers to a message if the held list has this many places, and what the part is afterwards.
    ghost table: { Self → T → ℕ → Answer T × Self };

    /// Whether the part takes memory for the message.
    ghost takes_memory: { Self → T → Bool };

    /// Hands the part a message. `places` says how many messages the held list has places for, once this one has left
    /// its own: the part answers Full if it needs more. All other answers are the table's. NoMemory comes only for a
    /// message for which the part takes memory, and which it would consume or start something for.
    fn deliver(&mut self, message: &T, places: u32) -> Answer<T>
        requires { IsTrue (has_case self.old message.now) }
        ensures answer { Answers table takes_memory self.old message.now places result self.new }
        ensures fits { (result ≡ Answer.Held) ⊎ (needs result ≤ places) }
        ensures quiet { is_quiet result ≡ true → self.new ≡ self.old };
}
