//! Laws of the rules on column types: what is reported of a text in which tokens of a type became a word.
#![tactic(auto)]

pub mod laws;

// What crates above reach through this one.
pub use law_edit_types::starts_ascend;
pub use law_fixes::{
    BanUncommittedTransaction, PreferRepack, RequireConcurrentIndexCreation,
    RequireConcurrentIndexDeletion, RequireConcurrentPartitionDetach, RequireConcurrentReindex,
    RequireTimeoutSettings, TransactionNesting,
};
pub use pass_data_type::{
    Action, Body, ColType, Column, Constraint, Edit, Elem, Expr, Fix, Found, Ignore, IgnoreIndex,
    IgnoreKind, IgnorePiece, LinterSettings, NamePath, Names, NoMemory, NoPass, OpenTransaction,
    Pair, Parse, Pass, Piece, PreferBigintOverInt, PreferBigintOverSmallint, PreferIdentity,
    PreferTextField, PreferTimestamptz, Reports, RequireEnumValueOrdering, Rule, RuleSet, SetPart,
    Span, StatementPass, StepPass, Steps, Stmt, TableWrite, TablesCreatedInTransaction, Target,
    Text, TextRange, TextSize, Tok, ViewDefinition, Violation, drive, find_ignores,
    has_disable_assume_in_transaction, ignore_rule_info, unused_pieces,
};
