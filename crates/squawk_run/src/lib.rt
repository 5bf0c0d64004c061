//! What all programs of this repository do alike, whatever they make of a text: they take the words after the program's name, read the
//! input to its end, test it for UTF-8, and say on the error sink how they ended.
//!
//! - [`Stop`] has the ways to end that all of them have, each with its exit status and its line, and [`Status`] all ways to end of a
//!   program that lints one text.
//! - [`take_words`], [`has_foreign_word`] and [`read_text_choices`] are about the words: those that the system gives, those that a program
//!   does not take, and what the others choose.
//! - [`read_input`] and [`text_in`] are about the input: all of its bytes, and the text that they are.
//! - [`say`], [`say_stop`], [`say_line`], [`say_line_at`] and [`say_count`] write one line to the error sink and take no memory. Where a
//!   write fails the sink has the beginning of the line, and nothing else comes of it.
//!
//! `specs/Stops.antt` has the exit status and the line of each stop, and `specs/Ends.antt` what each end says of a run: what its words are,
//! what was read and written, and which failure a fault means. Which end each of its statuses is, a program says by a function, as
//! `specs/Statuses.antt` does for [`Status`]. `proofs/Runs.antt` has what it then needs: that a run ends well where nothing fails.
#![tactic(auto)]

mod foreign;
mod input;
pub mod laws;
mod line;
mod status;
mod stop;
mod text_choices;
mod words;

pub use foreign::has_foreign_word;
pub use input::{read_input, text_in};
pub use line::{say, say_count, say_line, say_line_at, say_stop};
pub use status::Status;
pub use stop::Stop;
pub use text_choices::read_text_choices;
pub use words::take_words;

// What crates above reach through this one.
pub use devices::{
    Failed, FileError, FileStore, FileWriter, MemFiles, MemSink, MemSource, MemWriter, NoMemory,
    Sink, SliceSource, Source, StdSink, StdSource, SystemFiles, SystemWriter, TextRange, TextSize,
    Written, read_to_end, write_all,
};
pub use squawk_words::{
    Choices, Edit, Fix, Given, LinterSettings, Names, Text, Violation, Words, after_dashes,
    begins_with_dash, choices_by, is_option, items_of, name_in, read_choices, read_given, value_in,
};
