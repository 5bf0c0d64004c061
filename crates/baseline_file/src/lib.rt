//! The baseline of a run: its file, the reports that it leaves, and the line that is written where it is refused.
//!
//! `specs/Loaded.antt` says what is read from a file, and `specs/Leaving.antt` which reports are left.
#![tactic(auto)]

mod filter;
mod load;

pub use filter::BaselineFilter;
pub use load::load_filter;

// What crates above reach through this one.
pub use check_baseline::written;
pub use check_run::{FileStore, Request};
pub use config_file::{Config, LoadError, linter_words, load_config};
