//! What docs/RULES.md says of each rule and each hazard, as plain text. Written by tools/rule_pages.py.
#![tactic(auto)]

mod access_and_security;
mod aliases;
mod behavior_and_replication;
mod columns_and_types;
mod columns_and_types_more;
mod constraints;
mod drops;
mod hazards;
mod ignore_comments;
mod indexes;
mod list;
mod names;
mod page;
mod renames_and_moves;
mod settings_and_options;
mod transactions_and_timeouts;

pub use list::RULE_LIST;
pub use page::{code_page, rule_page};
