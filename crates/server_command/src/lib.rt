//! The command `server`: a language server over any files, source and sinks, from the words after the program's name to the exit status.
//!
//! `specs/Asked.antt` says what words ask for, `specs/Settled.antt` which linter words and a configuration choose, `specs/Workspace.antt` how it is
//! entered, and `specs/Command.antt` what a run does.
#![tactic(auto)]

mod asked;
mod command;
mod help;
mod outcome;
mod settled;
mod workspace;

pub use asked::is_server;
pub use command::run;
pub use help::HELP;
pub use outcome::{Outcome, Refusal};
pub use workspace::Workspace;

// What crates above reach through this one.
pub use lsp_serve::{Frames, push_frame};
