//! Comments by which a SQL text tells the linter what to leave out.
//!
//! `specs/` says what each call means: `Part` has parts of a text with their places, and `Comment`
//! the bodies of comments and what they say, `Names` what a name in an ignore comment says, `Found`
//! what is found in a whole text, `Covered` which reports the comments cover, and `Unused` which
//! names cover nothing.
#![tactic(auto)]

mod comment;
mod found;
mod ignore;
mod index;
pub mod laws;
mod lines;
mod part;
mod reported;
mod sets;
mod unused;

pub use comment::{
    IGNORE_FILE_TEXT, IGNORE_LINE_TEXT, has_disable_assume_in_transaction, ignore_rule_info,
};
pub use found::{Found, find_ignores};
pub use ignore::{Ignore, IgnoreKind, IgnorePiece};
pub use index::IgnoreIndex;
pub use unused::unused_pieces;

// What crates above reach through this one.
pub use sql_tree::{
    Action, ActionKind, Body, ColType, Column, ConKind, Constraint, Elem, Expr, FullName, Keyword,
    Name, NamePath, Parse, Piece, PieceKind, ReindexTarget, SetPart, Span, Stmt, StmtKind,
    TableWrite, Target, TokKind, TyKind, ViewDefinition, first_significant, keyword_of,
    same_keyword,
};
