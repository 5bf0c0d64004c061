//! The statement that a part of a text is in.
//!
//! `specs/Statements.antt` says which one it is. A [`Cursor`] finds it for one part after another, in one pass over the statements.
#![tactic(auto)]

mod cursor;

pub use cursor::Cursor;
