//! What holds of the counts of every run. The functions do nothing: their contracts are the laws.
ghost use Rattle.std.specs.Prelude.{◌≡◌, ◌+◌, ◌*◌, ◌/◌, ◌^◌, ◌<◌, ◌≤◌, ℕ, IfSome, List, Option, Some, length};
ghost use Rattle.std.specs.Prelude.{is_some, slice_get};
ghost use Rattle.std.specs.Ordering.{nat_cmp};
ghost use Rattle.std.specs.FinMap.{FinMap};
ghost use Rattle.physiological_order.specs.declared.operation.Op.{Op};
ghost use Rattle.physiological_order.specs.Order.{of_core};
ghost use Rattle.private_cache.specs.CopyTable.{copy_of};
ghost use Rattle.core_pts.specs.CoreTable.{CoreState, line_of};
ghost use Rattle.machine_table.specs.declared.config.Config.{Config};
ghost use Rattle.machine_table.specs.declared.event.Event.{Event};
ghost use Rattle.machine_table.specs.Machine.{Machine};
ghost use Rattle.machine_table.specs.Opening.{at_start};
ghost use Rattle.machine_table.specs.Runs.{after_all};
ghost use Rattle.machine_table.specs.Transition.{transition};
ghost use Rattle.event_counts.specs.Counts.{HasCompleted};
ghost use Rattle.event_counts.specs.Counting.{cause_of, counter_events, no_counter};
ghost use Rattle.event_counts.specs.LossLaw.{IsCause, TellsLoss};
ghost use Rattle.event_counts.specs.Losses.{key_of, loss};
ghost use Rattle.event_counts.specs.RowLaw.{IsRow};
ghost use Rattle.schedules.specs.Watches.{watched};

/// An event sends one message at most. After any events since a machine opened, as many messages are counted as were
/// sent.
pub fn every_message_is_counted()
    ensures one { (m : Machine) (event : Event) →
        (transition m event).1.mail.next ≤ m.mail.next + 1 }
    ensures all { (config : Config) (memory : FinMap nat_cmp ℕ) (cores banks : ℕ)
        (every : Option ℕ) (events : List Event) → let m = at_start config memory in
        (watched counter_events (no_counter cores banks every) m events).counts.next
        ≡ (after_all m events).mail.next }
{}

/// After fewer than 2^64 events since a machine opened, the operations of a core that are counted as completed are as
/// many as its records, and so are its hits and misses.
pub fn every_record_is_counted()
    ensures { (config : Config) (memory : FinMap nat_cmp ℕ) (cores banks core : ℕ)
        (every : Option ℕ) (events : List Event) → core < cores → length events < 2 ^ 64 →
        let m = at_start config memory in
        HasCompleted (length (of_core core (after_all m events).records))
        (slice_get (watched counter_events (no_counter cores banks every) m events).counts.cores core) }
{}

/// What is noted of a core and a line tells how the core lost its copy. If nothing is noted, no event took it: then the
/// core has the copy now, or never had it. If a cause is noted, the last event that took the copy did it so: by an
/// eviction, or otherwise, which is Recalled. An event takes a copy that is there before it and not after it. The note
/// is found by a number, which no other core and line have.
pub fn every_lost_copy_is_noted()
    ensures notes { (config : Config) (memory : FinMap nat_cmp ℕ) (cores banks core line : ℕ)
        (every : Option ℕ) (events : List Event) → config.cores ≤ 2 ^ 32 → core < config.cores →
        let m = at_start config memory in TellsLoss m events core line
        (loss (watched counter_events (no_counter cores banks every) m events).lost core line) }
    ensures numbers { (core line other other_line : ℕ) → core < 2 ^ 32 → other < 2 ^ 32 →
        key_of core line ≡ key_of other other_line → (core ≡ other) × (line ≡ other_line) }
{}

/// The cause that the counter finds for a core's open operation is right, behind any events of a run. If the core has a
/// copy of the line, it is Ended for a load, and Shared for a store or swap. If it has none, it is Cold exactly if it
/// never had one. It is Evicted or Recalled exactly if the last copy was taken so. A request is counted with this
/// cause.
pub fn every_miss_has_its_cause()
    ensures { (config : Config) (memory : FinMap nat_cmp ℕ) (cores banks core : ℕ)
        (every : Option ℕ) (events : List Event) (state : CoreState) (op : Op) →
        config.cores ≤ 2 ^ 32 → core < config.cores → let m = at_start config memory in
        slice_get (after_all m events).cores core ≡ Some state → state.open_op ≡ Some op →
        IsCause m events core (line_of state op) op
        (is_some (copy_of state.cache (line_of state op)))
        (cause_of (watched counter_events (no_counter cores banks every) m events).lost core (Some state)) }
{}

/// With a row each N operations, a row is what is counted after the first of a run's events: those by which that
/// many operations were completed for the first row, twice as many for the second, and so on. There are as many rows as
/// that number goes into the operations that the run completed.
pub fn every_row_is_counted()
    ensures rows { (config : Config) (memory : FinMap nat_cmp ℕ) (cores banks every : ℕ)
        (events : List Event) (at : ℕ) → 0 < every → let m = at_start config memory in
        let first = no_counter cores banks (Some every) in
        IfSome (slice_get (watched counter_events first m events).rows at)
        (IsRow first m events ((at + 1) * every)) }
    ensures number { (config : Config) (memory : FinMap nat_cmp ℕ) (cores banks every : ℕ)
        (events : List Event) → 0 < every → let m = at_start config memory in
        length (watched counter_events (no_counter cores banks (Some every)) m events).rows
        ≡ length (after_all m events).records / every }
{}
