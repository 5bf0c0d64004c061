//! Which rules and which hazards the arguments choose, and the linter's settings.
//!
//! The words are those of `squawk_words`, in which lists of rules may name hazards too, and `--no-hazards`. `specs/Choices.antt` says what
//! they choose.
#![tactic(auto)]

mod choices;
mod lists;
mod read;

pub use choices::CodeChoices;
pub use lists::code_list;
pub use read::read_code_choices;

// What crates above reach through this one.
pub use lint_report::{NoMemory, Text, code_named};
pub use squawk_run::{
    FileError, FileStore, MemFiles, MemSink, MemSource, Sink, Source, StdSink, StdSource, Stop,
    SystemFiles, SystemWriter, Words, after_dashes, begins_with_dash, has_foreign_word, is_option,
    items_of, name_in, read_input, say_stop, take_words, text_in, value_in, write_all,
};
