//! Findings in the Static Analysis Results Interchange Format (SARIF), an OASIS standard, version 2.1.0.
//!
//! A log is `push_opening`, the results with a comma between two, and `push_closing`. `specs/` says which object each is;
//! `serde_json` says what text an object has.
#![tactic(auto)]

mod fixes;
mod log;
mod places;
mod results;
mod text;

pub use log::{push_closing, push_opening};
pub use text::{push_refusal, push_report};
