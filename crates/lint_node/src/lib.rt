//! The nodes of a tree that rules look at: what is in a statement, what is said of types and of statements without
//! their tokens, and when two kinds are the same.
//!
//! `specs/` says what each call means: `Parts` the parts of a statement, `Altered` the events of an ALTER TABLE,
//! `ColumnTypes` the types of columns and `TypesLeft` a walk over them, `Plain` what is not done CONCURRENTLY, `Same`
//! equality of kinds.
#![tactic(auto)]

mod altered;
mod parts;
mod plain;
mod same;
mod types;

pub use altered::{altered_path, path_in, table_actions};
pub use parts::{
    actions_of, added_column, added_constraint, created_elements, has_action, is_checked,
    new_constraints, replaces, table_elements,
};
pub use plain::{is_plain_detach, is_plain_drop, is_plain_reindex, is_system};
pub use same::{same_action, same_constraint, same_kind, same_piece, same_type};
pub use types::{
    ColumnTypes, added_type, column_types, element_type, has_arguments, is_of_kind,
    is_without_zone, set_type,
};
