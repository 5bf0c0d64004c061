//! What a file for psql has besides SQL, as commands of psql itself and the data of COPY, and the bodies of functions, which psql sends as a part of their statement.
#![tactic(auto)]

mod blank;
mod block;
mod body;
mod class;
mod command;
pub mod laws;
mod lead;
mod lines;
mod mark;
mod part;
mod reading;
mod statement;
mod token;

pub use blank::{Blanked, blank_out, without_psql};
pub use part::{Part, PartKind};
pub use reading::{Found, Reading, next_part, start};

// What crates above reach through this one.
pub use sql_lex::{NoMemory, TokKind};
