//! `check` over files, or over an input: the result for each, the output, and the status.
//!
//! A [`Lint`] lints a text, a [`Filter`] leaves reports out, and a [`Printer`] writes the others, so that nothing here
//! depends on the linter, on a list of known reports or on a format. A [`Progress`] shows how far a run is.
#![tactic(auto)]

mod files;
mod filter;
mod input;
mod lint;
mod printer;
mod progress;
mod run;

pub use files::check_files;
pub use filter::Filter;
pub use input::{check_input, reads_input};
pub use lint::Lint;
pub use printer::Printer;
pub use progress::Progress;
pub use run::check;

// What crates above reach through this one.
pub use check_words::{
    FileError, FileStore, MemFiles, MemSink, MemSource, Request, Sink, StdSink, StdSource,
    SystemFiles, SystemWriter, say_stop, take_words, text_in, write_all,
};
pub use checked_file::{
    Answer, Checked, Linted, NoMemory, Partial, Passed, Place, Refusal, Report, SourceFile,
    TextSize, push_shown, width,
};
pub use sql_files::Words;
