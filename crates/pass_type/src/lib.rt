//! The port's names of passes on types and names. They are kept in crates by what they look at; this crate only passes them on, and nothing is built on it.
#![tactic(auto)]

pub use pass_data_type::{
    BanCharField, ChangingColumnType, PreferBigintOverInt, PreferBigintOverSmallint,
    PreferIdentity, PreferTextField, PreferTimestamptz, RequireEnumValueOrdering, WideInteger,
};
pub use pass_name::{BanDuplicateColumnAssignments, IdentifierTooLong};
