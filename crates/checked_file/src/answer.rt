//! What comes of a file.

use crate::status::Status;
use lint_report::Report;
use source_file::Refusal;

/// What comes of a file.
#[derive(Debug, Drop)]
pub enum Answer {
    /// It was linted, and this is reported.
    Reports(Vec<Report>),
    /// Some of its statements could not be parsed; the others were linted.
    Partial(Partial),
    /// It could not be linted.
    Refused(Refusal),
}

/// A file of which some statements could not be parsed, and the others were linted.
#[derive(Debug, Drop)]
pub struct Partial {
    /// The bytes as they were read. In the bytes that were linted these statements are blank.
    pub bytes: Vec<u8>,
    /// Where the statements could not be parsed, in these bytes: one for each, in their order.
    pub faults: Vec<Refusal>,
    /// What is reported of the other statements, in the bytes that were linted.
    pub reports: Vec<Report>,
}

impl Answer {
    ghost use Rattle.std.specs.Prelude.{◌≡◌};
    ghost use Rattle.checked_file.specs.Answers.{error_count, has_findings, report_count, status_of};

    /// The status of a run over this file alone.
    pub fn status(&self) -> Status
        ensures { result ≡ status_of self.now }
    {
        match self {
            Answer::Reports(reports) => {
                if reports.is_empty() {
                    Status::Clean
                } else {
                    Status::Found
                }
            }
            Answer::Partial(_) => Status::Unparsed,
            Answer::Refused(refusal) => match refusal {
                Refusal::NotUtf8 { .. } => Status::NotUtf8,
                Refusal::Missing | Refusal::Unreadable => Status::Unreadable,
                Refusal::TooLong | Refusal::Unterminated { .. } | Refusal::Syntax { .. } => {
                    Status::Unparsed
                }
            },
        }
    }

    /// How many reports it has.
    pub fn report_count(&self) -> usize
        ensures { result ≡ report_count self.now }
    {
        match self {
            Answer::Reports(reports) => reports.len(),
            Answer::Partial(partial) => partial.reports.len(),
            Answer::Refused(_) => 0,
        }
    }

    /// How many errors it has: the statements that could not be parsed, or one for the file that could not be linted.
    pub fn error_count(&self) -> usize
        ensures { result ≡ error_count self.now }
    {
        match self {
            Answer::Reports(_) => 0,
            Answer::Partial(partial) => partial.faults.len(),
            Answer::Refused(_) => 1,
        }
    }

    /// Whether something is written of it.
    pub fn has_findings(&self) -> bool
        ensures { result ≡ has_findings self.now }
    {
        match self {
            Answer::Reports(reports) => !reports.is_empty(),
            Answer::Partial(partial) => !partial.faults.is_empty() || !partial.reports.is_empty(),
            Answer::Refused(_) => true,
        }
    }
}
