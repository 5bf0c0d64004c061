//! The port's names of the calls that read the parts of a statement from spans of its tokens: the elements of a table's list, the
//! constraints of a domain, the actions of an ALTER statement. This crate only passes them on, and nothing is built on it.
#![tactic(auto)]

pub use sql_action::{read_actions, read_domain, read_elems};
