//! The results of a run, printed in each format.
//!
//! `specs/Printed.antt` puts the forms of the findings, which crates of their own define, together: what is before the first, between
//! two, and after the last.
#![tactic(auto)]

mod answer;
mod counts;
mod files;
mod finding;
mod passed;
mod statistics;
mod style;

pub use files::printed;
pub use style::Style;

// What crates above reach through this one.
pub use check_words::{Asked, Color, FailOn, HELP, Request, VERSION, WordFault, read_asked};
pub use checked_file::{Checked, NoMemory, Status};
