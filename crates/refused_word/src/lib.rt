//! The line that says which argument of `lavkheto` is refused, and what was expected.
//!
//! `specs/Messages.antt` has the message of each fault.
#![tactic(auto)]

mod line;
mod message;

pub use line::{fault_line, words_line};

// What crates above reach through this one.
pub use check_words::{
    Choice, CodeChoices, FileStore, Sink, Source, Stop, WordFault, asks_for_help,
    read_code_choices, read_input, text_in, write_all,
};
pub use nearest_code;
pub use nearest_code::{Code, code_named};
pub use report_lines::{
    NoMemory, Order, Refusal, Rule, Text, push, push_concise, push_escaped, push_place,
};
pub use shown_words::{Words, after_dashes, begins_with_dash, is_option, name_in, value_in};
