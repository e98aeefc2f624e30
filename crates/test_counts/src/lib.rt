//! Tests of the counts of runs that were worked out by hand.
#![tactic(auto)]

#[cfg(test)]
mod runs;
