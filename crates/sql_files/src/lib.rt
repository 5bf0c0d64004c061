//! The files that the arguments name: for a folder the SQL files in it, and for every other name itself.
//!
//! `specs/Named.antt` says which names these are.
#![tactic(auto)]

mod expand;

pub use expand::expanded;

// What crates above reach through this one.
pub use devices::{FileError, FileStore, Sink, Source, write_all};
pub use squawk_words::Words;
