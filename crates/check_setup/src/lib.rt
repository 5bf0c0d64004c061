//! The configuration and the baseline of `lavkheto check`, read before the files.
//!
//! `specs/SetUp.antt` says what is read for a request, and why it is refused.
#![tactic(auto)]

mod setup;

pub use setup::{Setup, load_setup};

// What crates above reach through this one.
pub use baseline_file::{Config, LoadError, linter_words, written};
