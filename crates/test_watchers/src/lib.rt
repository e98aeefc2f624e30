//! Tests of what sees a run: watchers of a caller's own, what runs show them and where they make no room, and a machine
//! that keeps no history. The values were worked out by hand from docs/SCHEDULES.md.
#![tactic(auto)]

pub mod in_flight;
#[cfg(test)]
mod runs;
#[cfg(test)]
mod told;
