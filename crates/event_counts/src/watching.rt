//! A counter as the watcher of a run.
ghost use Rattle.event_counts.specs.Counting.{counter_events};

use crate::counter::Counter;
use interleaving_core::{Event, History, PlainAnswer, System};
use schedules::Watcher;
use std::alloc::AllocError;

/// Counts each answered event of a run.
impl Watcher for Counter {
    ghost watches = { counter_events };

    #[inline(always)]
    fn prepare<K: History>(&mut self, system: &System<K>, event: &Event) -> Result<(), AllocError> {
        Counter::prepare(self, system, event)
    }

    #[inline(always)]
    fn see<K: History>(&mut self, system: &System<K>, event: &Event, plain: &Option<PlainAnswer>) {
        Counter::see(self, system, event, plain);
    }
}
