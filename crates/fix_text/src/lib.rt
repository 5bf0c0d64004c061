//! Fixing a text by the classes of its fixes: the text in which no fix is left that fits and that the classes allow.
//!
//! [`fix_text`] makes fixes one after another, of the listed rules of `law_fix_steps` alone: for those it is a law that fixing ends.
//! `specs/Allowed.antt` says which fixes the classes allow, `Fixing` which texts are reached, and `Others` which fixes are not made because
//! another one changes the same bytes.
#![tactic(auto)]

mod choose;
mod fixed;
mod look;
mod others;

pub use fixed::{Fixed, fix_text};

// What crates above reach through this one.
pub use fix_class::laws::classes_tell;
pub use law_next_fix::{LintError, Linter, sql_read_parse as parse};
pub use other_fix::{LinterSettings, Names, OtherFix, Text};
