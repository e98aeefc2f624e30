//! What the texts of all reports share, in lines or as one JSON object: each is appended to the text so far.
#![tactic(auto)]

mod addresses;
mod layout;
mod lines;

pub use addresses::{put_address, write_address};
pub use layout::{
    Layout, put_by_layout, put_item_separator, put_list_closing, put_list_opening,
    put_report_closing, put_report_opening,
};
pub use lines::{put_labelled_number, put_labelled_word, put_memory_word, put_message_counts};
