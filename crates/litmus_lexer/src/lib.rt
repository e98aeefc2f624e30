//! What the text of a litmus test is made of: its pieces, words, first lines and locations.
#![tactic(auto)]

mod bytes;
mod cursor;
mod errors;
mod first_lines;
pub mod laws;
mod limits;
mod locations;
mod signs;
mod tokens;
mod words;

pub use cursor::{Cursor, HeaderLines};
pub use errors::{Kind, LitmusError, ReadError};
pub use first_lines::{begins_block, is_header_line, read_title};
pub use limits::{
    LAST_REGISTER, LAST_THREAD, LONGEST_LOCATION, LONGEST_TITLE, MOST_ATOMS, MOST_BYTES,
    MOST_DEPTH, MOST_LOCATIONS, MOST_ORI, MOST_ROWS, MOST_THREADS, VALUE_BOUND,
};
pub use locations::Locations;
pub use signs::{
    BAR, CLOSING_BRACE, CLOSING_PARENTHESIS, COLON, COMMA, EQUALS, OPENING_BRACE,
    OPENING_PARENTHESIS, SEMICOLON,
};
pub use tokens::{Token, next_token};
pub use words::{capped_number, is_location, is_number, register_number, small_number};
