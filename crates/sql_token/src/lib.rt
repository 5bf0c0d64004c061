//! The tokens of a SQL text, the terminals of its grammar, and how a text is cut into statements.
//!
//! Everything that the other crates prove of tokens is stated by the definitions in `specs/`:
//! `Token`, `Quote` and `Comment` say which bytes are one token (PostgreSQL manual, section 4.1),
//! `Terminal` what a significant token is to the grammar, `Depth` how brackets are counted and
//! where a statement ends, and `Sound` which statements may be read at all.
#![tactic(auto)]

pub mod laws;
mod spans;
mod terminal;
mod token;

pub use spans::span_of;
pub use sql_keyword::{Keyword, keyword_of, same_keyword};
pub use terminal::{Symbol, Terminal};
pub use token::{Span, Tok, TokKind, first_significant};
