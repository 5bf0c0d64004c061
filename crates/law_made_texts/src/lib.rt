//! The law of made texts: each of them is read.
#![tactic(auto)]

pub mod laws;

// What crates above reach through this one.
pub use squawk_generate::{made_text, write_summary};
