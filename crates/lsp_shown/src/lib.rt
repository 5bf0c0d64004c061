//! Reports of rules and hazards as an editor shows them: each range of bytes is put as two positions, and each report has what can be done
//! about it, its fix and a comment that tells the linter to leave it.
//!
//! `specs/Shown.antt` says what is shown of reports and of a text that is refused, and `specs/Places.antt` what is asked of reports.
#![tactic(auto)]

mod ignore;
mod notes;
mod refused;
mod report;
mod tokens;

pub use ignore::Lines;
pub use notes::notes_in;
pub use refused::refused_at;
pub use report::shown;
pub use tokens::long_tokens;

// What crates above reach through this one.
pub use lsp_session::{Checker, Pos, PosIndex, Report};
