//! What is reported of a text: by a rule of Squawk's, or by a hazard.
//!
//! `specs/Codes.antt` says by what name a report goes, and which texts name one.
#![tactic(auto)]

mod code;
mod fix_class;
mod report;

pub use code::{Code, code_named};
pub use fix_class::FixClass;
pub use report::{Report, ReportFix};

// What crates above reach through this one.
pub use hazard_base::{
    Edit, Fix, Hazard, HazardSet, LinterSettings, NoMemory, Rule, RuleSet, Text, TextRange,
    TextSize, Violation,
};
