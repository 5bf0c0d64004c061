//! Lints the bytes of a file.
//!
//! `specs/Answers.antt` says what is read from bytes, and what is reported of it; `Faults` why a text can't be read, and which of its statements
//! have a fault; and `Joined` which its statements are.
#![tactic(auto)]

mod answer;
mod backslash;
mod fault;
mod joined;
mod linter;
mod range;
mod read;
mod statements;
mod text;

pub use answer::lint_bytes;
pub use linter::FileLinter;

// What crates above reach through this one.
pub use check_run::{Printer, Progress, check};
pub use law_reports::{Linter, TextLinter, reports_tell};
