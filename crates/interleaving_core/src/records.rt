//! What an answer leaves in the machine: the record of a completion, and the stop of exhausted times.
ghost use Rattle.std.specs.Prelude.{◌≡◌, ◌≤◌, ◌||◌, length};
ghost use Rattle.interleaving_core.specs.PartChanges.{stops, with_record};

use crate::histories::History;
use machine_table::{Answer, Refusal};

/// Adds the record of a completion, for which there is room.
#[inline(always)]
pub(crate) fn add_completed_record<H: History>(history: &mut H, answer: &Answer)
    requires { length (with_record (H.records history.old) answer.now) ≤ H.room history.old }
    ensures issued { H.issued history.new ≡ H.issued history.old }
    ensures records { H.records history.new ≡ with_record (H.records history.old) answer.now }
    ensures room { H.room history.old ≤ H.room history.new }
{
    if let Answer::Completed(done) = answer {
        history.complete(done);
    }
}

/// Stops the machine if times are exhausted.
#[inline(always)]
pub(crate) fn stop_if_exhausted(is_stopped: &mut bool, answer: &Answer)
    ensures { is_stopped.new ≡ (stops answer.now || is_stopped.old) }
{
    if let Answer::Refused(Refusal::Exhausted) = answer {
        *is_stopped = true;
    }
}
