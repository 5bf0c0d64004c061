//! The rules, what a linter reports, and its settings.
//!
//! `specs/` says what each call means: `Rules` has the table of what is known of each rule,
//! `RuleNames` the texts that name a rule, `RuleSets` sets of rules, `RuleChoice` which rules lists
//! choose, and `Grown` what a list of reports holds after a refusal.
#![tactic(auto)]

mod edit;
mod fix;
pub mod laws;
mod names;
mod reports;
mod rule;
mod rule_choice;
mod rule_name;
mod rule_set;
mod rule_slots;
mod settings;
mod text;
mod violation;

pub use edit::Edit;
pub use fix::Fix;
pub use names::Names;
pub use reports::Reports;
pub use rule::Rule;
pub use rule_name::{RuleNameError, UnknownName, UnknownRuleName};
pub use rule_set::{RuleSet, RuleSetIter};
pub use settings::LinterSettings;
pub use text::Text;
pub use violation::Violation;

// What crates above reach through this one.
pub use text_pos::{LineIndex, NoMemory, TextRange, TextSize, line_ending};
