//! The law of answers and repeated fixing: the fix of each report of a listed rule that a linter answers is a step.
#![tactic(auto)]

pub mod laws;

// What crates above reach through this one.
pub use squawk_linter::laws::{answered_fixes_mend, answers_placed, second_answer};
pub use squawk_linter::sql_read::parse;
pub use squawk_linter::{LintError, Linter, lint_text};
