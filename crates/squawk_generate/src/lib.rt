//! Made texts of any length, to measure and try the linter on, and a short summary of the reports on such a text.
#![tactic(auto)]

mod counts;
mod made;
mod summary;

pub use made::made_text;
pub use summary::write_summary;
