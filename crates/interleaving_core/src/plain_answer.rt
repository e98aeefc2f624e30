//! The answer to an event, without the record of a completion.
ghost use Rattle.std.specs.Prelude.{◌≡◌, ◌||◌};
ghost use Rattle.interleaving_core.specs.PartChanges.{answer_in, answer_of, plain_of, stops};

use crate::histories::History;
use crate::machine_state::MachineState;
use crate::records::stop_if_exhausted;
use machine_table::{Answer, Refusal};

/// The answers that have no record. It takes two bytes, where an `Answer`, which may have a record, takes 72. The order
/// is that of `Answer`, with a refusal in place of a completion, so that `answer_of` needs no jump.
#[derive(Clone, Copy)]
pub enum PlainAnswer {
    Issued,
    /// Nothing changes, or the machine is stopped if times are exhausted.
    Refused(Refusal),
    /// A request was sent.
    Requested,
    /// The request is out, and the copy does not serve the operation yet.
    Waiting,
    /// No operation is open.
    Idle,
    /// The message is consumed.
    Delivered,
    /// The message is consumed and has no effect.
    Dropped,
    /// The message stays in flight, and nothing changes.
    Held,
    /// The message stays in flight, and another one was sent on its behalf.
    Started,
    /// The copy or the line is gone.
    Evicted,
    /// The bank asks the owner to return the line; the line stays.
    Recalled,
    Advanced,
}

/// A plain answer as an answer. Once a refusal is ruled out, the others keep their numbers, which takes no jump.
#[inline(always)]
pub(crate) fn answer_of(plain: PlainAnswer) -> Answer
    ensures { result ≡ answer_of plain }
{
    if let PlainAnswer::Refused(why) = plain {
        return Answer::Refused(why);
    }
    match plain {
        PlainAnswer::Issued => Answer::Issued,
        PlainAnswer::Requested => Answer::Requested,
        PlainAnswer::Waiting => Answer::Waiting,
        PlainAnswer::Idle => Answer::Idle,
        PlainAnswer::Delivered => Answer::Delivered,
        PlainAnswer::Dropped => Answer::Dropped,
        PlainAnswer::Held => Answer::Held,
        PlainAnswer::Started => Answer::Started,
        PlainAnswer::Evicted => Answer::Evicted,
        PlainAnswer::Recalled => Answer::Recalled,
        PlainAnswer::Advanced => Answer::Advanced,
        PlainAnswer::Refused(why) => Answer::Refused(why),
    }
}

/// An answer without a record; none, if it has one.
#[inline(always)]
pub(crate) fn plain_of(answer: &Answer) -> Option<PlainAnswer>
    ensures { result ≡ plain_of answer.now }
{
    match answer {
        Answer::Issued => Some(PlainAnswer::Issued),
        Answer::Completed(_) => None,
        Answer::Requested => Some(PlainAnswer::Requested),
        Answer::Waiting => Some(PlainAnswer::Waiting),
        Answer::Idle => Some(PlainAnswer::Idle),
        Answer::Delivered => Some(PlainAnswer::Delivered),
        Answer::Dropped => Some(PlainAnswer::Dropped),
        Answer::Held => Some(PlainAnswer::Held),
        Answer::Started => Some(PlainAnswer::Started),
        Answer::Evicted => Some(PlainAnswer::Evicted),
        Answer::Recalled => Some(PlainAnswer::Recalled),
        Answer::Advanced => Some(PlainAnswer::Advanced),
        Answer::Refused(why) => Some(PlainAnswer::Refused(*why)),
    }
}

impl<H: History> MachineState<H> {
    /// The answer of the machine as it is now: without a plain one its last record was completed.
    #[inline(always)]
    pub(crate) fn answer_in(&self, plain: Option<PlainAnswer>) -> Answer
        ensures { result ≡ answer_in self.now.records plain }
    {
        match plain {
            Some(plain) => answer_of(plain),
            None => match self.history.last() {
                Some(done) => Answer::Completed(*done),
                None => Answer::Idle,
            },
        }
    }
}

/// Stops the machine if times are exhausted.
#[inline(always)]
pub(crate) fn stop_after_plain_answer(is_stopped: &mut bool, plain: PlainAnswer)
    ensures { is_stopped.new ≡ (stops (answer_of plain) || is_stopped.old) }
{
    stop_if_exhausted(is_stopped, &answer_of(plain));
}
