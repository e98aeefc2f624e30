//! What a message does to a core's copy of one line: a decision, which changes nothing.
ghost use Rattle.std.specs.Prelude.{◌≡◌, IsTrue, false, is_some, option_copied};
ghost use Rattle.private_cache.specs.CopyTable.{copy_of};
ghost use Rattle.core_pts.specs.OnCopy.{finds_place, flushed, written_back};
ghost use Rattle.core_pts.specs.CoreTable.{decided, is_pinned, is_reply, pinned_line};

use crate::core_state::Core;
use crate::on_copy::{is_exclusive, words_of_copy};
use network::{Body, Message};
use private_cache::LineCopy;
use timestamp_manager::downgrade;

/// What a core does at a message.
#[derive(Clone, Copy, Debug, PartialEq, Eq)]
pub enum CoreReaction {
    /// A reply brings this copy, which becomes the most recently used one; no request is out.
    Arrives(LineCopy),
    /// A reply changes the copy into this one; no request is out.
    Grants(LineCopy),
    /// The line goes back by this message, and this copy of it stays, if any.
    Returns { kept: Option<LineCopy>, sent: Body },
    /// The message has no effect.
    Drops,
    /// The message waits, and nothing changes.
    Holds,
    /// A sum of times does not fit.
    TooLate,
    /// The table has no case.
    NoCase,
}

// A line is asked back, of which no copy stays.
#[inline(always)]
fn decide_flush(copy: Option<&LineCopy>) -> CoreReaction
    ensures { result ≡ flushed (option_copied copy.entry) }
{
    let Some(copy) = copy else {
        return CoreReaction::Drops;
    };
    if !is_exclusive(copy.state) {
        return CoreReaction::Drops;
    }
    CoreReaction::Returns {
        kept: None,
        sent: Body::FlushRep(words_of_copy(copy)),
    }
}

// A line is asked back, of which a copy stays to be read at least up to a time.
#[inline(always)]
fn decide_write_back(lease: u64, until: u64, copy: Option<&LineCopy>) -> CoreReaction
    ensures { result ≡ written_back lease until (option_copied copy.entry) }
{
    let Some(copy) = copy else {
        return CoreReaction::Drops;
    };
    if !is_exclusive(copy.state) {
        return CoreReaction::Drops;
    }
    let Ok(rts) = downgrade(copy.wts, copy.rts, until, lease) else {
        return CoreReaction::TooLate;
    };
    let kept = copy.downgraded(rts);
    CoreReaction::Returns {
        kept: Some(kept),
        sent: Body::WbRep(words_of_copy(&kept)),
    }
}

impl Core {
    /// What the core does at a message that is no reply. A copy of the line is looked for only where it decides.
    #[inline(always)]
    pub(crate) fn decide_on_message(&self, message: &Message) -> CoreReaction
        requires { is_reply message.now.body ≡ false }
        ensures decision { result ≡ decided self.now message.now.line message.now.body }
        ensures place { IsTrue (finds_place (is_pinned (pinned_line self.now) message.now.line)
            (is_some (copy_of self.now.cache message.now.line)) result) }
    {
        let line = message.line;
        match message.body {
            Body::FlushReq | Body::WbReq { .. } if self.is_pinned(line) => CoreReaction::Holds,
            Body::FlushReq => decide_flush(self.cache.find(line)),
            Body::WbReq { rts } => decide_write_back(self.lease(), rts, self.cache.find(line)),
            _ => CoreReaction::NoCase,
        }
    }
}
