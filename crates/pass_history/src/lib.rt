//! Passes on what earlier actions of a text did to the same tables and constraints.
//!
//! Each action of an ALTER TABLE is an event of the text's history, and is reported by the events before it. [`AddingNotNullField`]
//! remembers them by [`ExcusedColumns`], [`PreferRobustStmts`] by [`DroppedConstraints`]. `specs/` says what is reported, each pass in
//! a file of its own; `History` has the events. [`not_null_by_history`] says that the statements they are in don't matter.
#![tactic(auto)]

mod adding_not_null_field;
mod constraints;
mod dropped_constraints;
mod excused_columns;
mod laws;
mod not_null_checks;
mod prefer_robust_stmts;
mod robust_actions;
mod robust_reports;
mod robust_statements;

pub use adding_not_null_field::AddingNotNullField;
pub use dropped_constraints::DroppedConstraints;
pub use excused_columns::ExcusedColumns;
pub use laws::not_null_by_history;
pub use prefer_robust_stmts::{PreferRobustStmts, PreferRobustStmtsMemory};
