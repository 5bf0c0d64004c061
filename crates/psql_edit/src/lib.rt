//! A text that was made for psql, with other SQL: its commands of psql, its data of COPY and its bodies of functions stay.
//!
//! `specs/Exchange.antt` says what is kept of a text. How the new text is made is no part of that: it is read again, and taken only where
//! it has the SQL that is wanted, and the commands, the data and the bodies of the old text.
#![tactic(auto)]

mod edit;
mod lines;
mod parts;

pub use edit::with_sql;

// What crates above reach through this one.
pub use psql_text::{Blanked, without_psql};
