//! Keeps the record of each operation that completes.
ghost use Rattle.std.specs.Prelude.{◌<◌, ◌-◌, vec_capacity, vec_len};
ghost use Rattle.streamed_runs.specs.KeptRecords.{keeps_records};

use interleaving_core::{Event, History, PlainAnswer, System};
use physiological_order::{Op, Record};
use schedules::Watcher;
use std::alloc::AllocError;

/// The records of the operations that a run completed, in order.
#[derive(Drop)]
pub struct Completed {
    pub records: Vec<Record>,
}

impl Watcher for Completed {
    ghost watches = { keeps_records (λ w. w.records.items) (λ w. 0 < vec_capacity w.records - vec_len w.records) };

    #[inline(always)]
    fn prepare<K: History>(
        &mut self,
        _system: &System<K>,
        _event: &Event,
    ) -> Result<(), AllocError> {
        self.records.reserve(1)
    }

    #[inline(always)]
    fn see<K: History>(&mut self, system: &System<K>, _event: &Event, plain: &Option<PlainAnswer>) {
        // The check finds what a record holds only where the function names its type.
        let _inside: Option<Op> = None;
        if plain.is_some() {
            return;
        }
        if let Some(done) = system.last_record() {
            self.records.push_reserved(*done);
        }
    }
}
