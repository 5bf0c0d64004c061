//! Which of the files that are named are checked: those that no pattern leaves out, each once.
//!
//! `specs/Choice.antt` says which these are.
#![tactic(auto)]

mod choice;

pub use choice::chosen;
