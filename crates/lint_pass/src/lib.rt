//! Passes: what a linter looks for in a tree, and the one walk over the statements that feeds them.
//!
//! A [`Pass`] has a table: the reports for a tree, rules and settings. A [`StepPass`] takes one statement after
//! another, and is a pass by [`walk`]. `specs/` says what each call means: `Cleared` which settings fit a tree, `Blocks`
//! the blocks of statements that a migration tool wrote, `BlockPlace` which statements lie in one, and `Walk` what a cursor
//! shows.
#![tactic(auto)]

mod bans;
mod block_place;
mod blocks;
mod cursor;
mod feed;
mod fixes;
mod nodes;
mod nothing;
mod pair;
mod pass;
mod rule_pass;
mod ruled;
mod seen;
mod statement_pass;
mod step;
mod steps;
mod where_enabled;

pub use bans::{BanPass, BanRows, Spot};
pub use block_place::{blocks_ended_before, is_in_block};
pub use blocks::{Block, find_blocks, is_end};
pub use cursor::Cursor;
pub use feed::{drive, walk};
pub use fixes::{insertion_fix, replacement_fix};
pub use nodes::{Node, NodeReader, report_nodes};
pub use nothing::NoPass;
pub use pair::{Pair, PairState};
pub use pass::Pass;
pub use rule_pass::RulePass;
pub use ruled::{RuledRows, report_ruled};
pub use seen::Seen;
pub use statement_pass::StatementPass;
pub use step::StepPass;
pub use steps::Steps;
pub use where_enabled::WhereEnabled;

// What crates above reach through this one.
pub use lint_base::{
    Edit, Fix, LinterSettings, Names, NoMemory, Reports, Rule, RuleNameError, RuleSet, Text,
    TextRange, TextSize, UnknownName, Violation, line_ending,
};
pub use lint_ignore::{
    Action, ActionKind, Body, ColType, Column, ConKind, Constraint, Elem, Expr, Found, FullName,
    IGNORE_FILE_TEXT, IGNORE_LINE_TEXT, Ignore, IgnoreIndex, IgnoreKind, IgnorePiece, Keyword,
    Name, NamePath, Parse, Piece, PieceKind, SetPart, Stmt, StmtKind, TableWrite, Target, TyKind,
    ViewDefinition, find_ignores, has_disable_assume_in_transaction, ignore_rule_info, keyword_of,
    same_keyword, unused_pieces,
};
pub use lint_node::{
    actions_of, added_constraint, altered_path, column_types, has_arguments, is_checked,
    is_of_kind, is_plain_detach, is_plain_drop, is_plain_reindex, is_system, is_without_zone,
    new_constraints, path_in, same_action, same_constraint, same_kind, same_piece, table_actions,
};
pub use lint_transaction::{
    OpenTransaction, SpanKey, SpanMap, SpanSet, TablesCreatedInTransaction, begins, chains,
    created, ends, histories_grow, is_listed_call, is_one_name, is_same_name, name_at,
};
pub use sql_token::{Span, Tok, TokKind, first_significant};
