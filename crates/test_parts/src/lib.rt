//! Tests of what no contract and no text can say of a machine's parts. Values are dropped once, and slots given back.
//! Then cases that no machine brings a part or a history to, and the numbers of errors.
#![tactic(auto)]

#[cfg(test)]
mod arenas;
pub mod clerks;
#[cfg(test)]
mod drops;
#[cfg(test)]
mod histories;
#[cfg(test)]
mod numbers;
#[cfg(test)]
mod slots;
#[cfg(test)]
mod unmet;
