//! The command `gate`, over any files: from its arguments to its output and exit status.
//!
//! `specs/Asked.antt` says what the arguments ask for and which are refused, `specs/Outcomes.antt` has the answers for files, and
//! `specs/Command.antt` says what a run does.
#![tactic(auto)]

mod answer;
mod asked;
mod command;
mod failure;
mod fault;
mod help;
mod judge;
mod left_open;
mod outcome;
mod read;
mod request;
mod step;

pub use asked::{Asked, read_asked};
pub use command::run;
pub use failure::Failure;
pub use fault::Fault;
pub use help::HELP;
pub use judge::judged;
pub use outcome::{Outcome, Status};
pub use request::Request;

// What crates above reach through this one.
pub use gate_report::gate_run;
