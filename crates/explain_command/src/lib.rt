//! The command `explain`: from the words after the program's name to what is written and the exit status.
//!
//! `specs/Words.antt` says which text words ask for, and `specs/Command.antt` what a run does.
#![tactic(auto)]

mod choice;
mod command;
mod failure;
mod help;
mod refusal;

pub use command::run;
pub use failure::Failure;
pub use help::HELP;
