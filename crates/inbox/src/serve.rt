//! Serving: of the messages in their order, the first that isn't passed is delivered. docs/SEATS.md gives the order.
ghost use Rattle.std.specs.Prelude.{◌≡◌, ℕ, ◌+◌, ◌-◌, ◌<◌, ◌≤◌, ◌++◌, ◌||◌, ◌∷◌, [], true, drop, length};
ghost use Rattle.std.specs.Prelude.{IfSome, IsTrue, IsSome, Some, None, slice_get};
ghost use Rattle.inbox.specs.Inboxes.{inbox};
ghost use Rattle.inbox.specs.Queues.{values_of};
ghost use Rattle.inbox.specs.Serving.{HaveCases, Serves, after_hand, after_held};
ghost use Rattle.inbox.specs.Walks.{Asks, ServesHeld, Walks};
ghost use Rattle.inbox.specs.Serving.{finds_no_place, fitted, is_quiet, needs, result_of, sent_list};
ghost use Rattle.inbox.specs.Serving.{none_served, stays_held};

use crate::answer::{Answer, Refusal, Served};
use crate::inbox::Inbox;
use crate::queue::{PLACES, Queue};
use crate::receiver::Receiver;
use line_arena::Cell;

// Whether the message finds no place.
fn finds_no_place<T>(answer: &Answer<T>) -> bool
    ensures { result ≡ finds_no_place answer.now }
{
    matches!(answer, Answer::Refused(Refusal::Full))
}

// Whether a held message is passed.
fn is_message_passed<T>(answer: &Answer<T>) -> bool
    ensures { result ≡ (stays_held answer.now || finds_no_place answer.now) }
{
    matches!(answer, Answer::Held | Answer::Refused(Refusal::Full))
}

// The answer, or a refusal of a message that is to be held and for which there is no place.
fn answer_unless_full<T: Drop>(places: u32, answer: Answer<T>) -> Answer<T>
    ensures { result ≡ fitted places answer }
{
    match answer {
        Answer::Held if places == 0 => Answer::Refused(Refusal::Full),
        _ => answer,
    }
}

// Hands the part a message for which the held list has so many places.
fn deliver_to_part<T: Drop, P: Receiver<T>>(part: &mut P, message: &T, places: u32) -> Answer<T>
    requires { IsTrue (P.has_case part.old message.now) }
    ensures answer { Asks P.table P.takes_memory part.old message.now places result part.new }
    ensures fits { needs result ≤ places }
    ensures quiet { is_quiet result ≡ true → part.new ≡ part.old }
{
    let answer = part.deliver(message, places);
    answer_unless_full(places, answer)
}

// Puts a message that was sent, if any, at the end of the held list.
fn push_sent_to_held<T: Drop>(held: &mut Queue<T>, sent: Option<T>)
    requires place { length (values_of held.old) + length (sent_list sent) ≤ 256 }
    ensures after { values_of held.new ≡ values_of held.old ++ sent_list sent }
{
    if let Some(message) = sent {
        held.push(message);
    }
}

// What a walk of the held messages came to: the cell of the one that is served and its answer, and whether one before
// found no place.
#[derive(Drop)]
struct Walk<T> {
    found: Option<(Cell, Answer<T>)>,
    refused: bool,
}

// Hands the part the held messages, the oldest first, up to the one that isn't passed.
fn deliver_held<T: Drop, P: Receiver<T>>(held: &Queue<T>, part: &mut P) -> Walk<T>
    requires cases { (i : ℕ) (m : T) → slice_get (values_of held.now) i ≡ Some m →
        IsTrue (P.has_case part.old m) }
    ensures walk { Walks P.table P.takes_memory held.now part.old result.refused result.found part.new }
    ensures fits { IfSome result.found (λ f. length (values_of held.now) + needs f.1 ≤ 257) }
{
    let count = held.len();
    let places = PLACES + 1 - count;
    let mut refused = false;
    let mut next = held.front();
    for _ in 0..count {
        let Some(cell) = next else {
            return Walk {
                found: None,
                refused,
            };
        };
        let answer = deliver_to_part(part, held.get(cell), places);
        if !is_message_passed(&answer) {
            return Walk {
                found: Some((cell, answer)),
                refused,
            };
        }
        refused |= finds_no_place(&answer);
        next = held.next(cell);
    }
    Walk {
        found: None,
        refused,
    }
}

// Puts the held list right after the answer to the message of a cell.
fn apply_held_answer<T: Drop>(
    held: &mut Queue<T>,
    found: (Cell, Answer<T>),
) -> Result<Served, Refusal>
    requires cell { (k : ℕ) × (m : T) × (drop k (held.old)
        ≡ (found.0, m) ∷ drop (k + 1) (held.old)) }
    requires fits { length (values_of held.old) + needs found.1 ≤ 257 }
    ensures result { result ≡ result_of found.1 }
    ensures after { (k : ℕ) (m : T) → drop k (held.old)
        ≡ (found.0, m) ∷ drop (k + 1) (held.old) →
        values_of held.new ≡ after_held found.1 k (values_of held.old) }
{
    let (cell, answer) = found;
    match answer {
        Answer::Delivered(sent) => {
            drop(held.take(cell));
            push_sent_to_held(held, sent);
            Ok(Served::Delivered)
        }
        Answer::Dropped => {
            drop(held.take(cell));
            Ok(Served::Dropped)
        }
        Answer::Started(sent) => {
            push_sent_to_held(held, sent);
            Ok(Served::Started)
        }
        Answer::Held => Ok(Served::Held),
        Answer::Refused(refusal) => Err(refusal),
    }
}

impl<T: Drop> Inbox<T> {
    /// Delivers to the part the first message that isn't passed: the one in the hand comes first, and then the held
    /// ones, the oldest first. The serving passes a message that finds no place, and a held one that stays held.
    ///
    /// A message that has to wait is held, and comes before the one that is sent on its behalf; one that is consumed
    /// leaves. All others keep their places and their order. If no message is served: Full if one found no place;
    /// otherwise Held, or Nothing if there is no message. Exhausted is the part's answer. So is NoMemory, and only if
    /// the part takes memory for the message that would be served. A refusal changes nothing.
    pub fn serve<P: Receiver<T>>(&mut self, part: &mut P) -> Result<Served, Refusal>
        requires { HaveCases P.has_case self.old part.old }
        ensures { Serves P.table P.takes_memory self.old part.old result self.new part.new }
    {
        let Some(message) = self.hand.as_ref() else {
            return self.serve_held(false, part);
        };
        let places = self.held.places();
        let answer = deliver_to_part(part, message, places);
        if finds_no_place(&answer) {
            return self.serve_held(true, part);
        }
        self.apply_hand_answer(answer)
    }

    // Serves the held messages. `refused` says whether the one in the hand found no place.
    fn serve_held<P: Receiver<T>>(&mut self, refused: bool, part: &mut P) -> Result<Served, Refusal>
        requires { HaveCases P.has_case self.old part.old }
        ensures { ServesHeld P.table P.takes_memory refused self.old part.old result self.new part.new }
    {
        let walk = deliver_held(&self.held, part);
        match walk.found {
            Some(found) => apply_held_answer(&mut self.held, found),
            None => self.none_served(refused || walk.refused),
        }
    }

    // What is answered if no message is served.
    fn none_served(&self, refused: bool) -> Result<Served, Refusal>
        ensures { result ≡ none_served refused self.now.held }
    {
        if refused {
            return Err(Refusal::Full);
        }
        if self.held.is_empty() {
            return Ok(Served::Nothing);
        }
        Ok(Served::Held)
    }

    // Puts the messages right after the answer to the one in the hand.
    fn apply_hand_answer(&mut self, answer: Answer<T>) -> Result<Served, Refusal>
        requires hand { IsSome self.old.hand }
        requires fits { length self.old.held + needs answer ≤ 256 }
        ensures result { result ≡ result_of answer }
        ensures after { IfSome self.old.hand
            (λ m. self.new ≡ after_hand answer m self.old.held) }
    {
        match answer {
            Answer::Delivered(sent) => {
                self.hand = None;
                push_sent_to_held(&mut self.held, sent);
                Ok(Served::Delivered)
            }
            Answer::Dropped => {
                self.hand = None;
                Ok(Served::Dropped)
            }
            Answer::Started(sent) => {
                self.hold_hand();
                push_sent_to_held(&mut self.held, sent);
                Ok(Served::Started)
            }
            Answer::Held => {
                self.hold_hand();
                Ok(Served::Held)
            }
            Answer::Refused(refusal) => Err(refusal),
        }
    }

    // Moves the message from the hand to the end of the held list, which has a place.
    fn hold_hand(&mut self)
        requires hand { IsSome self.old.hand }
        requires place { length self.old.held < 256 }
        ensures { IfSome self.old.hand
            (λ m. self.new ≡ inbox None (self.old.held ++ m ∷ [])) }
    {
        let taken = self.hand.take();
        self.held.push(taken.unwrap());
    }
}
