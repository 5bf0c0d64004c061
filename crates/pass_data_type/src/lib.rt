//! Passes on data types: the types of columns, and the values of enumerated types.
#![tactic(auto)]

mod ban_char_field;
mod changing_column_type;
mod prefer_identity;
mod prefer_text_field;
mod prefer_timestamptz;
mod require_enum_value_ordering;
mod type_name;
mod type_rule;
mod wider_integers;

pub use ban_char_field::BanCharField;
pub use changing_column_type::ChangingColumnType;
pub use prefer_identity::PreferIdentity;
pub use prefer_text_field::PreferTextField;
pub use prefer_timestamptz::PreferTimestamptz;
pub use require_enum_value_ordering::RequireEnumValueOrdering;
pub use wider_integers::{PreferBigintOverInt, PreferBigintOverSmallint, WideInteger};

// What crates above reach through this one.
pub use lint_pass::{
    Action, Body, ColType, Column, Constraint, Edit, Elem, Expr, Fix, Found, Ignore, IgnoreIndex,
    IgnoreKind, IgnorePiece, LinterSettings, NamePath, Names, NoMemory, NoPass, OpenTransaction,
    Pair, Parse, Pass, Piece, Reports, Rule, RuleSet, Seen, SetPart, Span, StatementPass, StepPass,
    Steps, Stmt, TableWrite, TablesCreatedInTransaction, Target, Text, TextRange, TextSize, Tok,
    ViewDefinition, Violation, WhereEnabled, drive, find_ignores,
    has_disable_assume_in_transaction, ignore_rule_info, unused_pieces,
};
