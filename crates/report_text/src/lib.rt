//! Findings as people read them: with the lines of the file that they are about, and what a fix makes of these.
//!
//! `specs/Report.antt` has the form, and `specs/Closing.antt` that of the last line. Nothing of a file or of a report can steer the terminal, but for the colours that are asked for.
#![tactic(auto)]

mod closing;
mod excerpt;
mod fixed;
mod helps;
mod layout;
mod paint;
mod report;
mod rows;

pub use closing::{Counts, push_closing};
pub use report::{push_refusal, push_report};
