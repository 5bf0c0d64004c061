//! Baselines: the reports that a team lets pass for now, so that only new ones count.
//!
//! A baseline is a text. Each of its lines begins with the fingerprint of a report, which is taken of the file's name, that of the rule or
//! hazard, and the text of the statement, and not of the place: a report stays known when lines move, and is new when its statement
//! changes. `specs/Known.antt` says which reports a baseline knows and what is left of files, and `specs/Written.antt` which baseline
//! knows all reports of some files.
#![tactic(auto)]

mod baseline;
mod known;
mod lines;

pub use baseline::{Baseline, BaselineError};
pub use known::without_known;
pub use lines::written;
