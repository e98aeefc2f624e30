//! Deals a list to a number of hands, item i to hand i mod hands, and gathers it again in its order.
#![tactic(auto)]

mod dealing;
mod gathering;
mod laws;

pub use dealing::{deal, new_empty_hands};
pub use gathering::gather;
pub use laws::{dealt_hands_have_lengths, one_list_gives_the_hands};
