//! Who watches a run: each answered event is shown to a value of the caller's.
ghost use Rattle.std.specs.Prelude.{◌≡◌, ◌<◌, ◌-◌, true, OnErr, OnOk, vec_capacity, vec_len};
ghost use Rattle.interleaving_core.specs.PartChanges.{answer_in};
ghost use Rattle.machine_table.specs.Machine.{Machine};
ghost use Rattle.schedules.specs.Watches.{Watches, keeps_events, sees_by};

use interleaving_core::{Event, History, PlainAnswer, System};
use physiological_order::Op;
use std::alloc::AllocError;

/// Who is shown each answered event of a run (docs/SCHEDULES.md). Events need not be kept for that.
pub trait Watcher {
    /// What the watcher makes of what it is shown.
    ghost watches: { Watches Self };

    /// The watcher makes ready for an event: it is shown the event that is to come and the machine before it, and makes
    /// room. An error is refused memory: the run ends, without the event.
    fn prepare<K: History>(&mut self, system: &System<K>, event: &Event) -> Result<(), AllocError>
        ensures same { watches.seen self.new ≡ watches.seen self.old }
        ensures ok { OnOk result (watches.IsReady self.new system.now event.now) }
        ensures refused { OnErr result (watches.asks ≡ true) };

    /// The event that it is ready for is shown once it is answered, with the machine after it. `None` answers an
    /// operation that is completed: the machine's last record is of that.
    fn see<K: History>(&mut self, system: &System<K>, event: &Event, plain: &Option<PlainAnswer>)
        requires { (before : Machine) × watches.IsReady self.old before event.now }
        ensures { (before : Machine) → watches.IsReady self.old before event.now →
            watches.seen self.new ≡ watches.sees (watches.seen self.old) before event.now
            (answer_in system.now.records plain.now) system.now };
}

/// Sees nothing, and costs nothing.
impl Watcher for () {
    ghost watches = { sees_by (λ w before event answer after. w) };

    #[inline(always)]
    fn prepare<K: History>(
        &mut self,
        _system: &System<K>,
        _event: &Event,
    ) -> Result<(), AllocError> {
        Ok(())
    }

    #[inline(always)]
    fn see<K: History>(
        &mut self,
        _system: &System<K>,
        _event: &Event,
        _plain: &Option<PlainAnswer>,
    ) {}
}

/// Keeps the events, in order.
impl Watcher for Vec<Event> {
    ghost watches = { keeps_events (λ w. w.items) (λ w. 0 < vec_capacity w - vec_len w) };

    #[inline(always)]
    fn prepare<K: History>(
        &mut self,
        _system: &System<K>,
        _event: &Event,
    ) -> Result<(), AllocError> {
        self.reserve(1)
    }

    #[inline(always)]
    fn see<K: History>(
        &mut self,
        _system: &System<K>,
        event: &Event,
        _plain: &Option<PlainAnswer>,
    ) {
        // The check finds the parts of an event only where the function names an operation's type.
        let _op: Option<Op> = None;
        self.push_reserved(*event);
    }
}
