//! The linter as what finds the reports of a text for a language server.
//!
//! `specs/Shown.antt` says which reports a text has: those of rules and hazards, or one where the text is refused.
#![tactic(auto)]

mod linting;
mod text;

pub use linting::Linting;

// What crates above reach through this one.
pub use text_reports::{Linter, TextLinter};
