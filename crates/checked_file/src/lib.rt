//! The result for a file: the linter's reports, or the reason why there are none; and the exit status of a whole run.
#![tactic(auto)]

mod answer;
mod checked;
mod status;

pub use answer::{Answer, Partial};
pub use checked::{Checked, Linted, Passed, readable, worst};
pub use status::Status;

// What crates above reach through this one.
pub use lint_report::{Code, NoMemory, Report, Text, TextRange, TextSize};
pub use source_file::{
    Level, Place, Refusal, SourceFile, push_escaped, push_escaped_name, push_shown, width,
};
