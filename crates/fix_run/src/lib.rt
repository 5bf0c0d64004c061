//! `fix` over files, or over an input: the fixed text of each, printed or written.
//!
//! A [`Fixer`] fixes a text, so that nothing here depends on the linter. `specs/Outcomes.antt` has the results for a file, `Giving`
//! what is printed or written, and `Runs` what a run does.
#![tactic(auto)]

mod asked;
mod files;
mod fixer;
mod give;
mod lines;
mod outcome;
mod run;
mod status;
mod stop;

pub use asked::reads_input;
pub use fixer::{Fixer, TextOutcome};
pub use run::{Done, fix};
pub use stop::FixStop;

// What crates above reach through this one.
pub use fix_words::{
    Asked, CodeChoices, Fault, HELP, Request, fault_line, read_asked, read_code_choices,
};
pub use gate_files::Status;
