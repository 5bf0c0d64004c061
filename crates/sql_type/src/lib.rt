//! Reads column types (PostgreSQL manual, chapter 8).
#![tactic(auto)]

mod array;
mod plain;

pub use array::{column_type, type_len};
