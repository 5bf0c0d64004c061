//! The command `fix`, with the fixes of the linter.
//!
//! `specs/Fixes.antt` says what is made of a text, and `ForPsql` what is made of one for psql.
#![tactic(auto)]

mod command;
mod fixer;
mod for_psql;
mod places;

pub use command::run;
pub use fix_asked::Failure;
pub use fixer::FixLinter;
