//! Laws of the list of all reports of a text: its order, what it means that a hazard is not in it, and what it means that it is empty.
//!
//! `specs/Order.antt` says what the order is, `specs/NotReported.antt` what it means that a hazard is not reported, and
//! `specs/CleanTexts.antt` what it means that nothing is.
#![tactic(auto)]

mod laws;

pub use laws::reports_tell;

// What crates above reach through this one.
pub use text_reports::sql_read::parse;
pub use text_reports::{
    LintError, Linter, NoMemory, Parse, TextLinter, TextSize, Tok, find_reports, sql_read,
};
