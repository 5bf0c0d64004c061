//! What comes of files, and the status.
ghost use Rattle.std.specs.Prelude.{◌≡◌};
ghost use Rattle.gate_command.specs.Statuses as spec;

use gate_report::{Cause, GateWork};
use refused_word::Refusal;

/// What comes of files that were read.
#[derive(Debug, Drop)]
pub enum Outcome {
    /// All are accepted. These are their works, file by file.
    Accepted { works: Vec<GateWork> },
    /// The file of this number, counted from 0, is not accepted.
    Refused { file: u32, cause: Cause },
}

/// How a run ends that nothing stops.
#[derive(Clone, Copy, Debug, PartialEq, Eq)]
pub enum Status {
    /// All files are accepted, or the help was printed.
    Accepted,
    /// A file is not accepted.
    Rejected,
    /// A file is not UTF-8.
    NotUtf8,
    /// A file has 2^32 bytes or more.
    TooLong,
    /// A file is not there or can't be read.
    Unreadable,
}

impl Status {
    /// The exit status of the program.
    pub fn code(self) -> u8
        ensures { result ≡ spec.code_of self }
    {
        match self {
            Status::Accepted => 0,
            Status::Rejected => 1,
            Status::NotUtf8 => 3,
            Status::TooLong => 4,
            Status::Unreadable => 5,
        }
    }
}

/// The status of a run that a file ends which was not read.
pub(crate) fn status_by(refusal: Refusal) -> Status
    ensures { result ≡ spec.status_by refusal }
{
    match refusal {
        Refusal::Missing | Refusal::Unreadable => Status::Unreadable,
        Refusal::NotUtf8 { .. } => Status::NotUtf8,
        Refusal::TooLong => Status::TooLong,
        Refusal::Unterminated { .. } | Refusal::Syntax { .. } => Status::Rejected,
    }
}

/// The status of a run over files that were read.
pub(crate) fn status_of(outcome: &Outcome) -> Status
    ensures { result ≡ spec.status_of outcome.now }
{
    match outcome {
        Outcome::Accepted { .. } => Status::Accepted,
        Outcome::Refused { .. } => Status::Rejected,
    }
}
