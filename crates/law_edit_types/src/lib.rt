//! Laws of a text in which a run of tokens becomes one word: it has a tree, which is the old one under other numbers but for the
//! statement that holds the run. Where the run is the type of a column that an ALTER TABLE adds or sets, or a CREATE TABLE lists, that
//! type is the word, and all else stays.
#![tactic(auto)]

pub mod laws;

// What crates above reach through this one.
pub use law_edit_inserts::starts_ascend;
