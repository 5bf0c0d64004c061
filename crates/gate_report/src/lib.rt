//! What the gate says of files to people: that they are accepted, or which one is not, where, why, and what to do.
//!
//! `specs/Causes.antt` has the words for each cause, `specs/Report.antt` the form of a refusal, and `specs/Accepted.antt` that of accepted files.
//! Nothing of a file or of its name can steer the terminal.
#![tactic(auto)]

mod accepted;
mod cause;
mod report;
mod rows;
mod spot;

pub use accepted::print_accepted;
pub use cause::Cause;
pub use report::print_refused;

// What crates above reach through this one.
pub use migration_gate::machine_laws::sessions_agree;
pub use migration_gate::{
    GateFile, GateWork, LintError, Linter, Verdict, ends_in_transaction, gate, gate_run, linter_of,
    parse,
};
