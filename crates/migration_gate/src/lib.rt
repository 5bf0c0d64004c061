//! The migration gate: whether an ordered list of migration files, given as one bundle, runs clean, one file after another. A list is
//! accepted where the linter finds nothing in any of its files, and then none of them does listed work on a table that others know.
//!
//! - [`gate_run`] is the gate as a command: it reads the words after the program's name and a bundle from any source, and writes the verdict
//!   and the line of its status to any sinks. [`read_gate_choices`] reads those words (`specs/GateWords.antt`).
//! - [`read_bundle`] reads a bundle in one walk and copies no text: one entry after another, each with the length of its file's text, the
//!   file's name and the text. `specs/Bundle.antt` says what a bundle is, and `specs/BundleLaws.antt` that it is one in one way.
//! - [`gate`] judges the files: `specs/Passing.antt` says when a file passes and why it does not, `Verdicts` what is answered for a list of
//!   files, `Laws` what that means, and `Judged` what a walk over the files knows.
//! - `specs/Run.antt` is the lock machine that goes over the files one after another: at each it begins a new transaction and keeps what it
//!   knows of tables. `specs/MachineLaws.antt` says that it dates the work of each file as the file by itself does, and when one session
//!   that runs all files does so too. [`ends_in_transaction`] tells whether a file leaves a transaction open, of which the gate says nothing.
//! - [`print_verdict`] prints a verdict. An accepted list has a line for each file, and below it one for each work of the file; a last line
//!   counts the files. A rejected one has a line with the file that does not pass and why (`specs/PrintedVerdict.antt`).
#![tactic(auto)]

mod accept;
mod bundle;
pub mod bundle_laws;
mod choices;
mod command;
mod config;
mod ending;
mod entry;
mod file;
mod judge;
mod judging;
pub mod laws;
pub mod machine_laws;
mod print;
mod print_lines;
pub mod printed_laws;
mod status;
mod verdict;

pub use accept::gate;
pub use bundle::{BundleError, read_bundle};
pub use choices::read_gate_choices;
pub use command::gate_run;
pub use config::linter_of;
pub use ending::ends_in_transaction;
pub use file::GateFile;
pub use print::print_verdict;
pub use squawk_run::{
    Failed, MemSink, MemSource, Sink, SliceSource, Source, StdSink, StdSource, Words,
};
pub use status::{GateStatus, say};
pub use verdict::{GateWork, Verdict, Why};

// What crates above reach through this one.
pub use squawk_linter::sql_read::parse;
pub use squawk_linter::{LintError, Linter};
pub use squawk_run::take_words;
