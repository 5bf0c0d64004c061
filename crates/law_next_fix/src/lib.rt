//! Laws of the fix that is made next: it can be tried, and if it fits, it is a step.
//!
//! `specs/Fitting.antt` says what fitting tells of a fix.
#![tactic(auto)]

pub mod laws;

// What crates above reach through this one.
pub use fix_choice::{
    Found, Parse, find_ignores, is_followed, is_listed, load_is_small, made_by, next_text,
};
pub use law_answer_steps::laws::{answers_ascend, answers_leave};
pub use law_answer_steps::{
    LintError, Linter, answers_placed, lint_text, parse as sql_read_parse, second_answer,
};
