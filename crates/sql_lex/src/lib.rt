//! Cuts a SQL text into its tokens, and its tokens into statements.
#![tactic(auto)]

mod brackets;
mod class;
mod comment;
mod dollar;
mod error;
mod inside;
mod lexer;
mod op;
mod quote;
mod scan;
mod sound;
mod spans;
mod statements;
mod symbol;

pub use error::LexError;
pub use inside::terminals_in;
pub use lexer::lex;
pub use scan::token_at;
pub use sound::is_sound;
pub use spans::cut;
pub use sql_token::span_of;
pub use statements::Statements;

// What crates above reach through this one.
pub use sql_token::TokKind;
pub use text_pos::NoMemory;
