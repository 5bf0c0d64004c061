//! `fix` with any fixer, over any files and streams: from the arguments to the exit status.
//!
//! `specs/Settled.antt` says what the arguments and the configuration choose, `Command` what a run does, and `Noted` what is said on the
//! error sink. The fixer is a type that is [`Chosen`], so that nothing here depends on the linter's rules.
#![tactic(auto)]

mod chosen;
mod command;
mod failure;
mod note;
mod settled;

pub use chosen::Chosen;
pub use command::run;
pub use failure::Failure;

// What crates above reach through this one.
pub use config_file::{
    Choices, FileStore, FileWriter, NoMemory, Refusal, Sink, Source, TextSize, Words,
};
pub use fix_run::{Fixer, Status, TextOutcome};
