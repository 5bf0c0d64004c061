//! How far the fix of a report can be trusted.
//!
//! `specs/Classes.antt` has the classes by rule; `Known` has what is known of a statement by the text around it, and `Words` the words of a
//! statement that its tree does not keep.
#![tactic(auto)]

mod class;
mod known;
pub mod laws;
mod partitioned;
mod word;

pub use class::FixClasses;
pub use known::Known;

// What crates above reach through this one.
pub use lint_ignore::{Parse, has_disable_assume_in_transaction};
pub use lint_report::{Code, FixClass, NoMemory, Report, ReportFix, TextRange};
pub use statement_place::Cursor;
