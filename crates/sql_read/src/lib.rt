//! Reads a SQL text: its tokens, its statements, and the tree of them.
#![tactic(auto)]

mod body;
mod error;
mod form;
mod reading;

pub use error::LintError;
pub use reading::parse;

// What crates above reach through this one.
pub use sql_action::{
    LexError, Statements, cut, has_keyword, is_sound, lex, nothing_kept, read_actions, read_domain,
    read_elems, read_front, span_of,
};
pub use sql_token::{Span, Terminal, Tok, TokKind};
pub use sql_tree;
pub use sql_tree::forms::Captures;
pub use sql_tree::{
    Action, Body, Constraint, Elem, Expr, FullName, Keyword, LineEnding, LineIndex, Name, NamePath,
    NoMemory, Stmt, StmtKind, TextRange, TextSize, keyword_of, line_ending, same_keyword,
};
