//! What a core does with a message.
ghost use Rattle.std.specs.Prelude.{◌≡◌, ◌≢◌, IfOk, IsSome, IsTrue, false, is_some, Err, None, OnErr, Some};
ghost use Rattle.network.specs.Sends.{sent_by};
ghost use Rattle.network.specs.declared.part.Reaction.TheVariants.{Done};
ghost use Rattle.private_cache.specs.CopyTable.{arrived, copy_of, place_for, with_changed, with_used};
ghost use Rattle.core_pts.specs.CoreTable.{core_has_case, core_table, is_pinned, is_reply, kept_in};
ghost use Rattle.core_pts.specs.CoreTable.{pinned_line};

use crate::core_state::Core;
use crate::decision::CoreReaction;
use network::{Body, LineNo, Message, Node, Part, PartError, Reaction, TimedLine};
use private_cache::{CopyState, LineCopy};

impl Core {
    // A reply brings this copy of the open operation's line.
    #[inline(always)]
    fn fill_copy(&mut self, line: LineNo, copy: LineCopy)
        requires pinned { IsTrue (is_pinned (pinned_line self.old) line) }
        requires place { IsTrue (place_for self.old.cache line) }
        ensures { self.new ≡ record self.old {
          cache = with_used self.old.cache line copy;
          is_out = false;
        } }
    {
        self.is_out = false;
        if self.has_copy {
            self.cache.put(line, copy);
            return;
        }
        self.cache.add(line, copy);
        self.has_copy = true;
    }

    // The same for a line that comes so. It is taken from where it lies in the message.
    #[inline(never)]
    fn fill_line(&mut self, line: LineNo, state: CopyState, timed: &TimedLine)
        requires pinned { IsTrue (is_pinned (pinned_line self.old) line) }
        requires place { IsTrue (place_for self.old.cache line) }
        ensures { self.new ≡ record self.old {
          cache = with_used self.old.cache line (arrived state timed.now);
          is_out = false;
        } }
    {
        self.fill_copy(line, LineCopy::arrived(state, *timed));
    }

    // A reply changes the copy of a line into this one.
    fn change_copy(&mut self, line: LineNo, copy: LineCopy)
        requires { IsSome (copy_of self.old.cache line) }
        ensures { self.new ≡ record self.old {
          cache = with_changed self.old.cache line copy;
          is_out = false;
        } }
    {
        self.cache.change(line, copy);
        self.is_out = false;
    }

    /// Whether a message is a reply of a bank.
    #[inline(always)]
    pub fn is_reply(body: &Body) -> bool
        ensures { result ≡ is_reply body.now }
    {
        matches!(
            body,
            Body::ShRep(_) | Body::ExRep(_) | Body::RenewRep { .. } | Body::UpgradeRep { .. }
        )
    }

    /// Takes in a reply: what `deliver` does then, but this call never fails, and the core sends nothing.
    #[inline(always)]
    pub fn take_reply(&mut self, message: &Message)
        requires case { IsTrue (core_has_case self.old message.now) }
        requires reply { IsTrue (is_reply message.now.body) }
        ensures { core_table self.old message.now ≡ Some (Done None, self.new) }
    {
        let line = message.line;
        match &message.body {
            Body::ShRep(timed) => self.fill_line(line, CopyState::Shared, timed),
            Body::ExRep(timed) => self.fill_line(line, CopyState::Exclusive, timed),
            Body::RenewRep { rts } => {
                let renewed = self.present_copy(line).renewed(*rts);
                self.change_copy(line, renewed);
            }
            Body::UpgradeRep { rts } => {
                let upgraded = self.present_copy(line).upgraded(*rts);
                self.change_copy(line, upgraded);
            }
            _ => unreachable!(),
        }
    }

    // The same by a call of its own, so that `deliver` stays small enough to be inlined.
    #[inline(never)]
    fn take_reply_apart(&mut self, message: &Message)
        requires case { IsTrue (core_has_case self.old message.now) }
        requires reply { IsTrue (is_reply message.now.body) }
        ensures { core_table self.old message.now ≡ Some (Done None, self.new) }
    {
        self.take_reply(message);
    }

    // The copy of a line that has one.
    #[inline(always)]
    fn present_copy(&self, line: LineNo) -> &LineCopy
        requires { IsSome (copy_of self.now.cache line) }
        ensures { Some result.now ≡ copy_of self.now.cache line }
    {
        let Some(copy) = self.cache.find(line) else {
            unreachable!()
        };
        copy
    }

    // This copy stays of a line that goes back, if any. It isn't the open operation's line.
    fn change_or_drop_copy(&mut self, line: LineNo, kept: Option<LineCopy>)
        requires there { IsSome (copy_of self.old.cache line) }
        requires free { is_pinned (pinned_line self.old) line ≡ false }
        ensures { self.new ≡ record self.old { cache = kept_in self.old line kept } }
    {
        match kept {
            Some(copy) => self.cache.change(line, copy),
            None => {
                let _gone = self.cache.evict(line, None);
            }
        }
    }
}

impl Part for Core {
    ghost use Rattle.core_pts.specs.CoreTable.{core_has_case, core_table};

    ghost has_case = { core_has_case };

    ghost table = { core_table };

    ghost takes_memory = { λ _ _. false };

    fn sends(&self, message: &Message) -> Option<(Node, bool)>
        requires { IsTrue (core_has_case self.now message.now) }
        ensures { result ≡ sent_by (core_table self.now message.now) }
    {
        if Core::is_reply(&message.body) {
            return None;
        }
        match self.decide_on_message(message) {
            CoreReaction::Returns { .. } => Some((self.bank_of(message.line), false)),
            _ => None,
        }
    }

    /// Delivers a message to the core. The call never answers NoMemory.
    #[inline(always)]
    fn deliver(&mut self, message: &Message) -> Result<Reaction, PartError>
        requires { IsTrue (core_has_case self.old message.now) }
        ensures done { IfOk result (λ reaction. core_table self.old message.now ≡ Some
            (reaction, self.new)) }
        ensures refused { OnErr result (self.new ≡ self.old) }
        ensures exhausted { result ≡ Err PartError.Exhausted →
            core_table self.old message.now ≡ None }
        ensures fits { core_table self.old message.now ≡ None → result ≡ Err PartError.Exhausted }
        ensures wanted { result ≡ Err PartError.NoMemory →
            IsTrue (is_some (sent_by (core_table self.old message.now))) }
        ensures sure { result ≢ Err PartError.NoMemory }
    {
        if Core::is_reply(&message.body) {
            self.take_reply_apart(message);
            return Ok(Reaction::Done(None));
        }
        let line = message.line;
        match self.decide_on_message(message) {
            CoreReaction::Returns { kept, sent } => {
                self.change_or_drop_copy(line, kept);
                Ok(Reaction::Done(Some(self.to_bank(line, sent))))
            }
            CoreReaction::Drops | CoreReaction::NoCase => Ok(Reaction::Dropped),
            CoreReaction::Holds => Ok(Reaction::Held),
            CoreReaction::TooLate => Err(PartError::Exhausted),
            CoreReaction::Arrives(_) | CoreReaction::Grants(_) => unreachable!(),
        }
    }
}
