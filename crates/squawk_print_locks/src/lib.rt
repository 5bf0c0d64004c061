//! The printed form of work under locks, as `--locks` asks for it after the reports.
//!
//! Each work is a line with the number of its statement, its lock, its table and its age. A last line says whether the text is
//! plain. `specs/PrintedLocks.antt` has the form. The parts of a line are public for other programs that print work.
#![tactic(auto)]

mod lines;
mod write;

pub use lines::{push_lock, push_table};
pub use write::write_works_after_reports;

// What crates above reach through this one.
pub use lock_machine::{LockKind, analyze};
pub use squawk_print::{
    WriteError, print_violations, printed_form_is_exact, push_escaped, push_number,
    write_violations,
};
