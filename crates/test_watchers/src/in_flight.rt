//! A watcher: how many messages are in flight after each event, and how many attempts waited.
ghost use Rattle.std.specs.Prelude.{◌≡◌, ◌<◌, ◌-◌, List, ℕ, true, vec_capacity, vec_len};
ghost use Rattle.physiological_order.specs.declared.operation.Record.{Record};
ghost use Rattle.interleaving_core.specs.PartChanges.{answer_in};
ghost use Rattle.test_watchers.specs.InFlight.{is_waiting, sees_messages};

use interleaving_core::{Event, History, PlainAnswer, System};
use schedules::Watcher;
use std::alloc::AllocError;

/// It takes at most `most` events.
#[derive(Drop)]
pub struct InFlight {
    pub counts: Vec<u64>,
    pub waits: u64,
    pub most: usize,
}

// Whether an attempt waits.
fn is_waiting(plain: &Option<PlainAnswer>) -> bool
    ensures { (records : List Record) → result ≡ is_waiting (answer_in records plain.now) }
{
    matches!(*plain, Some(PlainAnswer::Waiting))
}

impl Watcher for InFlight {
    ghost watches = { record {
      Seen = List ℕ × ℕ;
      seen = λ w. (w.counts.items, w.waits);
      sees = sees_messages;
      IsReady = λ w m event. 0 < vec_capacity w.counts - vec_len w.counts;
      asks = true;
    } };

    fn prepare<K: History>(
        &mut self,
        _system: &System<K>,
        _event: &Event,
    ) -> Result<(), AllocError> {
        if self.counts.len() >= self.most {
            return Err(AllocError);
        }
        self.counts.reserve(1)
    }

    fn see<K: History>(&mut self, system: &System<K>, _event: &Event, plain: &Option<PlainAnswer>) {
        self.counts.push_reserved(u64::from(system.messages()));
        if is_waiting(plain) {
            self.waits = self.waits.wrapping_add(1);
        }
    }
}
