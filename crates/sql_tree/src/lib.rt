//! The tree of a SQL text: its types, and the definitions of which text has which tree.
#![tactic(auto)]

pub mod actions;
pub mod alter_forms;
pub mod create_forms;
pub mod drop_forms;
pub mod forms;
mod kinds;
pub mod laws;
mod nodes;
pub mod other_forms;
mod parse;
mod path;
mod shape;

pub use kinds::{ActionKind, PieceKind, StmtKind};
pub use nodes::{
    Action, Body, ColType, Column, ConKind, Constraint, Elem, Expr, LockMode, Piece, ReindexTarget,
    SetPart, SourceFile, Stmt, TableWrite, Target, TyKind, ViewDefinition,
};
pub use parse::Parse;
pub use path::NamePath;
pub use shape::Shape;
pub use sql_name::{FullName, Name};
pub use sql_token::{Keyword, Span, Symbol, Terminal, Tok, TokKind};

// What crates above reach through this one.
pub use sql_name::{LineEnding, LineIndex, NoMemory, TextRange, TextSize, line_ending};
pub use sql_token::{first_significant, keyword_of, same_keyword};
