//! The configuration file of a run: which one it is, what it says, and the line that is written where it is refused.
//!
//! `specs/Found.antt` says which file is found, and `specs/Loaded.antt` what is taken of it.
#![tactic(auto)]

mod error;
mod find;
mod line;
mod load;

pub use error::{LoadError, refused};
pub use line::{file_line, line_at};
pub use load::{folder_config, load_config};

// What crates above reach through this one.
pub use check_config::{
    Choices, Config, FileStore, FileWriter, Sink, Source, Stop, Words, linter_words, write_all,
};
pub use report_lines::{NoMemory, Refusal, TextSize};
