//! All that is reported of a text: what the rules of the linter find, and what hazards it has, in one list by place.
//!
//! `specs/Reports.antt` says which reports these are.
#![tactic(auto)]

mod convert;
mod find;

pub use find::{TextLinter, find_reports};

// What crates above reach through this one.
pub use fix_class::Report;
pub use squawk_linter::clean::clean_answers;
pub use squawk_linter::laws::answers_placed;
pub use squawk_linter::{
    LintError, Linter, NoMemory, OwnPasses, Parse, StepPass, TextSize, Tok, sql_read,
};
