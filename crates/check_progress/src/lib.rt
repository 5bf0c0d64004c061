//! How far a run of `lavkheto check` is, on a line of a terminal that is written over and over.
//!
//! `specs/Lines.antt` says what is written.
#![tactic(auto)]

mod line;
mod meter;

pub use meter::Meter;

// What crates above reach through this one.
pub use check_run::{
    MemFiles, MemSink, MemSource, NoMemory, Place, Progress, SourceFile, StdSink, StdSource,
    SystemFiles, SystemWriter, TextSize, Words, push_shown, say_stop, take_words, width,
};
