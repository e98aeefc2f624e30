//! Texts of examples (docs/EVENTS.md): their lines, the words of a call, answers as they are written, and the loops of
//! a program that plays files, or lines as they come.
#![tactic(auto)]

pub mod answers;
pub mod causes;
pub mod command_line;
pub mod live;
pub mod messages;
pub mod openings;
pub mod pages;
pub mod players;
pub mod replies;
pub mod texts;
mod turned;
pub mod turns;
pub mod words;
mod written;

pub use answers::{
    name_of_refusal, put_answer, put_event, put_message_counts, put_op, put_open_op, put_ops,
    put_record, put_record_at, put_record_numbers, put_verdict, yes_or_no,
};
pub use causes::{Cause, Fault};
pub use command_line::{Manner, Wishes};
pub use live::Dialog;
pub use messages::{
    message_kind_index, message_kind_name, put_copy, put_entry, put_line_words, put_message,
    put_message_or_none,
};
pub use openings::{Opening, opening_memory_of, read_opening, read_reopening_words};
pub use pages::Page;
pub use players::{NO_MACHINE, NO_MEMORY, Player, run_player};
pub use replies::Reply;
pub use texts::{Example, Text, text_after_prefix};
pub use turns::{Cursor, Turn};
pub use words::{Part, Seat, Words, table_row_of_name};
