//! Hazards: what harms a running database, or the migration itself, and is seen by no rule of the linter.
//!
//! A hazard is named like a rule, and no text names both. `specs/` says what each call means: `Hazards` has the names, `HazardSets` sets
//! of hazards.
#![tactic(auto)]

mod finding;
mod hazard;
mod hazard_set;
pub mod laws;

pub use finding::Finding;
pub use hazard::{Hazard, hazard_named};
pub use hazard_set::HazardSet;

// What crates above reach through this one.
pub use lint_base::{
    Edit, Fix, LineIndex, LinterSettings, Names, NoMemory, Rule, RuleSet, Text, TextRange,
    TextSize, Violation,
};
