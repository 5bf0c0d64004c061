//! What is known about a position in a text: the open transaction, the tables that it created, and what earlier statements
//! said of a table, a column or a constraint.
//!
//! [`TablesCreatedInTransaction`] is kept by a walk and lent to its passes, since it borrows from the text. [`SpanSet`] and
//! [`SpanMap`] borrow nothing, and are what passes remember by: names, and a value for each. `specs/` says what each
//! call means: `Transaction` has the conditions on earlier statements, `Tracking` what a walk knows of them,
//! `SpanKey` the names by which spans are identified, `SpanSet` and `SpanMap` sets and maps of them, `Events` what holds after
//! a list of events, whose laws are in [`histories_grow`].
#![tactic(auto)]

mod laws;
mod name;
mod names;
mod open;
mod span_key;
mod span_map;
mod span_set;
mod statement;
mod tables;

pub use laws::histories_grow;
pub use name::{is_listed_call, is_one_name, is_same_name, name_at};
pub use open::OpenTransaction;
pub use span_key::SpanKey;
pub use span_map::SpanMap;
pub use span_set::SpanSet;
pub use statement::{begins, chains, created, ends};
pub use tables::TablesCreatedInTransaction;
