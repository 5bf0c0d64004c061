//! Repeated fixing: the fixes of ten rules are made in a text, one after another, until none is left that fits.
//!
//! - [`fix_all`] fixes a text, and [`Fixed`] is what it makes of it.
//! - [`fix_run`] does so for an input, as the program `squawk_fix_main` does over the standard streams.
//!
//! `specs/Fixing.antt` says what a step is and when fixing has ended, `specs/Outcome.antt` what each status of a run says, and
//! `specs/Lines.antt` what the error sink gets. Which fixes are made, `fix_choice` says.
//!
//! A fix may move a statement away from the ignore comment that silenced it, or remove a comment inside the type that it replaces. What was
//! silenced is then reported, and fixed too.
#![tactic(auto)]

mod answer;
mod choose;
mod command;
mod fixed;
mod round;

pub use command::fix_run;
pub use fixed::{Fixed, fix_all};
pub use law_next_fix::{LintError, Linter};
pub use squawk_run::{
    MemSink, MemSource, Sink, SliceSource, Source, Status, StdSink, StdSource, Words, say,
};

// What crates above reach through this one.
pub use law_next_fix::lint_text;
pub use squawk_run::{LinterSettings, Names, take_words};
