//! The arguments of `lavkheto check`: what they ask for.
//!
//! `specs/Asked.antt` says what words ask for. The words that choose rules, hazards and settings are kept as they are for
//! `code_choice`, which reads them.
#![tactic(auto)]

mod asked;
mod fault;
mod help;
mod lists;
mod names;
mod read;
mod request;
mod set;
mod step;

pub use asked::{Asked, fault_in, read_asked};
pub use fault::WordFault;
pub use help::{HELP, VERSION};
pub use names::{Choice, Flag};
pub use request::{Color, FailOn, Format, Request};

// What crates above reach through this one.
pub use code_choice::{
    CodeChoices, FileError, FileStore, MemFiles, MemSink, MemSource, Sink, Source, StdSink,
    StdSource, Stop, SystemFiles, SystemWriter, read_code_choices, read_input, say_stop,
    take_words, text_in, write_all,
};
pub use help_words::asks_for_help;
