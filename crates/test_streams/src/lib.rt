//! What only code can test of streams and texts: readers and writers that move few bytes a call or fail. Then the
//! names of errors, reports on texts in memory, and a report on sums that no run has.
#![tactic(auto)]

#[cfg(test)]
mod ends;
#[cfg(test)]
mod errors;
#[cfg(test)]
mod in_memory;
#[cfg(test)]
mod limited;
#[cfg(test)]
mod steps_ahead;
#[cfg(test)]
mod streams;
#[cfg(test)]
mod sums;
#[cfg(test)]
mod traces;
