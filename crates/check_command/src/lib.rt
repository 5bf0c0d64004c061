//! The command `check` with the linter: from its arguments to its output and exit status.
//!
//! `specs/Command.antt` says what a run does for which arguments.
#![tactic(auto)]

mod command;
mod failure;
mod printer;

pub use command::run;
pub use failure::Failure;
pub use printer::RunPrinter;
