//! What becomes of files in which fixes were made: their differences are printed, or they are written.
//!
//! `specs/Differences.antt` says what is printed, and `Writing` what is written.
#![tactic(auto)]

mod diffs;
mod file;
mod write;

pub use diffs::push_diffs;
pub use file::FixedFile;
pub use write::{WriteStop, write_changed};

// What crates above reach through this one.
pub use devices::{FileError, FileStore, FileWriter, NoMemory, Sink, Source, TextSize, write_all};
pub use other_fix::{OtherFix, Text};
