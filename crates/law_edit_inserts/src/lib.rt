//! Laws of the edits that fixes make: the edited text has a tree, which is the old one under other numbers but for one field or
//! one statement.
#![tactic(auto)]

pub mod laws;

// What crates above reach through this one.
pub use law_edit_cuts::starts_ascend;
