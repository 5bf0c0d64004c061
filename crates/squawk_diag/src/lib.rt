//! Diagnostics for editors: the reports on a text, with positions as editors count them, as JSON.
//!
//! - [`PosIndex`] puts places of a text as positions, and positions as places.
//! - [`diagnose`] lints a text and gives its diagnostics.
//! - [`write_json`] writes diagnostics as JSON, and [`read_json`] reads them back.
//! - [`diag_run`] does all of it for an input, as the program `squawk_diag_main` does over the standard streams.
#![tactic(auto)]

mod answer;
mod choose;
mod command;
mod text;
mod write;

pub use command::diag_run;
pub use diag_report::{
    DiagEdit, DiagError, DiagFix, Diagnostic, Pos, PosIndex, read_json, write_json,
};
pub use squawk_linter::{LintError, Linter};
pub use squawk_run::{
    MemSink, MemSource, Sink, SliceSource, Source, Status, StdSink, StdSource, Words, say,
};
pub use text::diagnose;

// What crates above reach through this one.
pub use squawk_run::take_words;
