//! Arguments of the command line, as they are shown on a line.
//!
//! `specs/Shown.antt` says how a word is written there.
#![tactic(auto)]

mod shown;

pub use shown::{push_word, push_words};

// What crates above reach through this one.
pub use squawk_words::{Words, after_dashes, begins_with_dash, is_option, name_in, value_in};
