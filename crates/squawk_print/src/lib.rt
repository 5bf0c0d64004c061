//! The printed form of reports, as the program writes it.
//!
//! Each report is a line with its range, its rule and its message, and below it a line for its note, its help, its fix and
//! each of the fix's edits, where they are there. A last line counts the reports. `specs/Printed.antt` has the form.
#![tactic(auto)]

mod escape;
mod laws;
mod report;
mod room;
mod write;

pub use escape::push_escaped;
pub use laws::printed_form_is_exact;
pub use report::{print_violations, push_number};
pub use write::{WriteError, write_violations};

// What crates above reach through this one.
pub use devices::{Failed, NoMemory, Sink, TextRange, write_all};
pub use lint_base::Violation;
