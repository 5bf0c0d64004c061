//! The rule or the hazard whose name a text is nearest to, for a text that names neither.
//!
//! `specs/Nearest.antt` says which one that is.
#![tactic(auto)]

mod all;
mod nearest;

pub use nearest::{near_code, nearest_code};

// What crates above reach through this one.
pub use lint_report::{Code, code_named};
