//! What a text does not do in which a hazard is looked for and not found.
//!
//! Each law is said in the words of the tree and of PostgreSQL's manual, and not in those by which the hazard is looked for. `specs/`:
//! `Silence` says what it means that a hazard is not found, `Inside` what a transaction block refuses, `Rewriting` what writes a table
//! anew, `Tables` which tables nobody else uses, `Additions` what columns are added, `Builds` how indexes are built and which timeouts are
//! set, `Views` which views are filled, `Words` how tokens are read, and `Laws` has the laws.
#![tactic(auto)]

mod laws;

pub use laws::hazards_not_found;
