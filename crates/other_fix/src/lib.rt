//! A fix that is not made, since another one changes the same bytes of a text and comes first.
//!
//! What finds such fixes is `fix_text`, and what says so of files is `fix_run`: the type is here, so that neither depends on the other.
#![tactic(auto)]

mod other;

pub use other::OtherFix;

// What crates above reach through this one.
pub use lint_base::{Edit, Fix, LinterSettings, Names, Text, Violation};
