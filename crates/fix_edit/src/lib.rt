//! Fixes of reports, made in a text.
//!
//! `specs/` says which edits can't be made (`Faults`), when each answer comes (`Answer`), and what a text is whose fix was made
//! (`Mends`).
#![tactic(auto)]

mod apply;
mod build;
mod error;
mod examine;
mod measure;

pub use apply::apply_fix;
pub use error::FixError;

// What crates above reach through this one.
pub use law_type_fixes::{
    Action, Body, ColType, Column, Constraint, Edit, Elem, Expr, Fix, Found, Ignore, IgnoreIndex,
    IgnoreKind, IgnorePiece, LinterSettings, NamePath, Names, NoMemory, NoPass, OpenTransaction,
    Pair, Parse, Pass, Piece, Reports, RequireConcurrentIndexCreation, Rule, RuleSet, SetPart,
    Span, StatementPass, StepPass, Steps, Stmt, TableWrite, TablesCreatedInTransaction, Target,
    Text, TextSize, Tok, ViewDefinition, Violation, drive, find_ignores,
    has_disable_assume_in_transaction, ignore_rule_info, starts_ascend, unused_pieces,
};
