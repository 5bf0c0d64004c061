//! The pass that reports what an existing table, type or sequence newly asks of its clients.
//!
//! An object that the text itself creates has no clients yet, so nothing is reported of it. `specs/` says what each call means:
//! `KnownObjects` which objects earlier statements create, `Words` what a piece of an ALTER SEQUENCE begins with, `Changes` the
//! spots of rows and the walk over a statement, `Rows` the rows, `ExistingObjects` the table of the pass, and `ChangeLaws` its laws.
#![tactic(auto)]

mod change_rows;
mod changes;
mod existing_object_compatibility;
mod known_objects;
mod words;

pub use existing_object_compatibility::ExistingObjectCompatibility;
pub use known_objects::KnownObjects;
