//! Tests of threads at work: numbers that they draw, jobs that they do at once, and turns that they give seats. A gate
//! sees the turns. The values were worked out by hand from docs/SCHEDULES.md.
#![tactic(auto)]

#[cfg(test)]
mod batches;
#[cfg(test)]
mod driver;
#[cfg(test)]
mod held_banks;
#[cfg(test)]
mod jobs;
#[cfg(test)]
mod numbers;
pub mod script;
#[cfg(test)]
mod turn_counts;
#[cfg(test)]
mod turns;
#[cfg(test)]
mod wholes;
