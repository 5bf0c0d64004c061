//! What hazards a text has.
//!
//! [`find`] lists the findings of a text, statement by statement. `specs/` says what each call means: `Findings` has the findings of each
//! hazard, `Refused` the statements that PostgreSQL refuses in a transaction, `Rewrites` those that write a table anew, `Columns` what new
//! columns ask for, `Timeouts` what a text sets, `Look` words that a tree does not keep, `Earlier` what earlier statements say of a
//! statement, `Guards` which later ones look at its index, `Shown` the words of a text outside of comments, `Here` all that is known of one, and `Walk` what a walk over the statements keeps.
#![tactic(auto)]

mod columns;
mod earlier;
mod finding;
mod guards;
mod here;
pub mod laws;
mod look;
mod refused;
mod rewrites;
mod shown;
mod timeouts;
mod walk;

pub use walk::find;

// What crates above reach through this one.
pub use hazard_base::{Finding, Hazard, HazardSet, LinterSettings, Names, Violation};
pub use lint_ignore::{Found, find_ignores};
