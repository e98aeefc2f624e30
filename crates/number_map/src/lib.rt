//! A map from numbers to values, which contracts see as a finite map: the memories of words and of lines use it.
#![tactic(auto)]

pub mod number_map;

pub use number_map::NumberMap;
