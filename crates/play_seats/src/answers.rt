//! What calls of seats answer, and how the player writes it.

use event_text::{Reply, put_answer};
use inbox::Served;
use machine_table::{Answer, Refusal};
use mailboxes::{Eviction, Take, Turn};

/// The answer if there is no such seat.
pub(crate) const NO_SEAT: &str = "no seat";

/// What a call answers.
#[derive(Clone, Copy)]
pub(crate) enum Says {
    /// An answer that an event of the machine has, too.
    Answers(Answer),
    /// Whether a message was put.
    Puts(bool),
    Takes(Take),
    /// No message was there to be served.
    Nothing,
    Turns(Turn),
    NoSeat,
}

/// What a call answers that has one answer if it isn't refused.
pub(crate) fn says_unless_refused(answer: Answer, came: Result<(), Refusal>) -> Says {
    match came {
        Ok(()) => Says::Answers(answer),
        Err(refusal) => Says::Answers(Answer::Refused(refusal)),
    }
}

pub(crate) fn says_of_served(came: Result<Served, Refusal>) -> Says {
    let answer = match came {
        Ok(Served::Delivered) => Answer::Delivered,
        Ok(Served::Dropped) => Answer::Dropped,
        Ok(Served::Started) => Answer::Started,
        Ok(Served::Held) => Answer::Held,
        Ok(Served::Nothing) => return Says::Nothing,
        Err(refusal) => Answer::Refused(refusal),
    };
    Says::Answers(answer)
}

pub(crate) fn says_of_turn(came: Result<Turn, Refusal>) -> Says {
    match came {
        Ok(turn) => Says::Turns(turn),
        Err(refusal) => Says::Answers(Answer::Refused(refusal)),
    }
}

pub(crate) fn says_of_eviction(came: Result<Eviction, Refusal>) -> Says {
    let answer = match came {
        Ok(Eviction::Evicted) => Answer::Evicted,
        Ok(Eviction::Recalled) => Answer::Recalled,
        Err(refusal) => Answer::Refused(refusal),
    };
    Says::Answers(answer)
}

fn name_of_served(served: &Served) -> &'static str {
    match served {
        Served::Delivered => "delivered",
        Served::Dropped => "dropped",
        Served::Started => "started",
        Served::Held => "held",
        Served::Nothing => "nothing",
    }
}

/// Writes what a call answered.
pub(crate) fn put_call_answer(says: &Says, out: &mut Reply) {
    match says {
        Says::Answers(answer) => put_answer(answer, out),
        Says::Turns(turn) => {
            out.put_number(u64::from(turn.put));
            out.put_word("put,");
            out.put_word(name_of_served(&turn.served));
        }
        Says::Puts(true) => out.put_word("put"),
        Says::Takes(Take::Taken) => out.put_word("taken"),
        Says::Takes(Take::HandFull) => out.put_word("hand full"),
        Says::Puts(false) | Says::Takes(Take::Nothing) | Says::Nothing => out.put_word("nothing"),
        Says::NoSeat => out.put_word(NO_SEAT),
    }
}
