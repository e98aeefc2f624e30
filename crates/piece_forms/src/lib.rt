//! A language of forms, and what its readers share: looks at the next piece.
#![tactic(auto)]

mod looks;

pub use looks::{
    expect_end, expect_line_end, expect_sign, expect_sign_in_line, next_piece,
    next_piece_or_line_end, next_piece_position, skip_word,
};
