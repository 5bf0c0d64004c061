//! The files of a gate: which ones the arguments name, in which order they run, and their texts.
//!
//! `specs/Named.antt` says which files the arguments name, and `specs/Read.antt` what was read of them.
#![tactic(auto)]

mod named;
mod order;
mod read;

pub use named::named_files;
pub use order::Order;
pub use read::{MigrationFile, Reading, Unread, read_files};

// What crates above reach through this one.
pub use checked_file::{Answer, Level, Refusal, SourceFile, Status, push_escaped, readable};
pub use file_choice::chosen;
pub use sql_files::Words;
