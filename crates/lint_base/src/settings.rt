//! The settings of a linter.
use crate::names::Names;

/// What a linter knows of the database and of the functions that are called.
#[derive(Debug, Drop)]
pub struct LinterSettings {
    /// The version of PostgreSQL: major, minor, patch.
    pub pg_version: [i32; 3],
    /// Whether a text is run inside a transaction that was begun before it.
    pub assume_in_transaction: bool,
    /// The functions that count as not volatile, by their full names.
    pub non_volatile: Names,
}
