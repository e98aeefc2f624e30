//! In how many turns of a schedule the events of a run were made.

use interleaving_core::{Answer, Event, Refusal, System};
use schedules::Policy;

/// The turns so far, and where the last event leaves the turn that it was made in.
#[derive(Clone, Copy)]
pub(crate) struct Turns {
    pub(crate) count: u64,
    by_rounds: bool,
    /// The core of the last event, or `BEHIND` all cores.
    at: u32,
    /// Whether an eviction follows in the same turn.
    evicts: bool,
    /// Whether an event of the same core follows in the same round.
    tries: bool,
}

/// The place of deliveries in a round.
const BEHIND: u32 = u32::MAX;

/// The place of an event in a round.
fn place_in_round(event: &Event) -> u32 {
    match *event {
        Event::Issue(core, _)
        | Event::Attempt(core)
        | Event::EvictCache(core, _)
        | Event::Advance(core) => core,
        Event::Deliver(_) | Event::EvictBank(_, _) => BEHIND,
    }
}

impl Turns {
    /// No turn was made of a run by this schedule.
    pub(crate) fn new(policy: Policy) -> Turns {
        Turns {
            count: 0,
            by_rounds: matches!(policy, Policy::Rounds | Policy::FairRounds),
            at: BEHIND,
            evicts: false,
            tries: false,
        }
    }

    /// Whether an event at this place goes on with the round: cores come in rising order, and then the deliveries.
    fn goes_on_in_round(&self, place: u32) -> bool {
        place > self.at || place == BEHIND || place == self.at && self.tries
    }

    /// An event comes: it begins a turn, or goes on with the last one.
    pub(crate) fn begin_event(&mut self, event: &Event) {
        let place = place_in_round(event);
        if !self.evicts && !(self.by_rounds && self.goes_on_in_round(place)) {
            self.count = self.count.saturating_add(1);
        }
        self.at = place;
    }

    /// The machine answered the event, and is now as given. An eviction of a copy makes a place if there was none for
    /// the line of an attempt. An eviction of a bank's line does so for a message that was held, if there is one.
    pub(crate) fn end_event(&mut self, system: &System, event: &Event, answer: &Answer) {
        self.evicts = match *answer {
            Answer::Refused(Refusal::NoRoom) => true,
            Answer::Held => match *event {
                Event::Deliver(number) => system.make_room(number).is_some(),
                _ => false,
            },
            _ => false,
        };
        self.tries = matches!(*event, Event::Issue(_, _) | Event::EvictCache(_, _));
    }
}
