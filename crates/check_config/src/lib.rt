//! The configuration of `lavkheto check`: the text of a `.squawk.toml`, and what its keys choose together with the words of the line.
//!
//! `specs/Config.antt` says what a text configures or why it is refused, `specs/Faults.antt` where and how that is said, and
//! `specs/Defaults.antt` which words the linter is asked by: a key is a default word, as if the word came on the line, unless the line has
//! that word. The text is read as TOML by the crate `toml`.
#![tactic(auto)]

mod config;
mod defaults;
mod fault;
mod place;
mod read;
mod rules;
mod texts;
mod version;

pub use config::Config;
pub use defaults::linter_words;
pub use fault::{ConfigError, ConfigFault};
pub use place::fault_place;
pub use read::read_config;

// What crates above reach through this one.
pub use squawk_run::{
    Choices, FileError, FileStore, FileWriter, Sink, Source, Stop, Words, text_in, write_all,
};
