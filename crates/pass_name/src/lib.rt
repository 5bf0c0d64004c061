//! Passes on names: identifiers that are too long, and columns that are named twice.
//!
//! `specs/` says what they report: `LongNames` which identifiers; `Groups` which elements of a list are equal to others, `Members`
//! which lists of names a statement has, `Duplicates` what is reported of these, and with which fix. `Entries` and `Gathered` are
//! what a map from names shows while groups are gathered in it.
#![tactic(auto)]

mod ban_duplicate_column_assignments;
mod deletions;
mod duplicate_report;
mod grouping;
mod identifier_too_long;
mod lists;
mod members;

pub use ban_duplicate_column_assignments::BanDuplicateColumnAssignments;
pub use identifier_too_long::IdentifierTooLong;
