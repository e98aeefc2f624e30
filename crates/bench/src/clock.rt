//! The result of a measurement, and how long its call took.

use std::rt::Clock;
use std::time::Instant;

/// The result of a measurement, and the nanoseconds of what it times.
#[derive(Clone, Copy)]
pub(crate) struct Told {
    pub(crate) done: u128,
    pub(crate) nanos: u128,
}

/// The time now, if the clock gives it.
pub(crate) fn now<R: Clock>(rt: &R) -> Option<Instant> {
    Instant::now(rt).ok()
}

/// What was done since then, with its time.
pub(crate) fn since<R: Clock>(rt: &R, start: &Instant, done: u128) -> Option<Told> {
    let nanos = start.elapsed(rt).ok()?.as_nanos();
    Some(Told { done, nanos })
}
