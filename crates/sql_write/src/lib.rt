//! Reads what queries give and what statements write.
#![tactic(auto)]

mod list;
mod query;
mod set;
mod target;
mod view;
mod write;

pub use query::read_targets;
pub use view::read_view_definition;
pub use write::read_table_write;
