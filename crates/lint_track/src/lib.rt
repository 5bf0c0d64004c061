//! The port's names of what passes are made of: the open transaction and the tables that it created, the locks of statements, ignore
//! comments, and the machinery of passes. This crate only passes them on, and nothing but tests is built on it.
#![tactic(auto)]

pub use lint_lock::{LockKind, analyze};
pub use lint_pass::{
    BanPass, BanRows, Block, Cursor, Found, IGNORE_FILE_TEXT, IGNORE_LINE_TEXT, Ignore,
    IgnoreIndex, IgnoreKind, IgnorePiece, NoPass, Node, NodeReader, OpenTransaction, Pair,
    PairState, Pass, RulePass, RuledRows, Seen, SpanKey, SpanMap, SpanSet, Spot, StatementPass,
    StepPass, Steps, TablesCreatedInTransaction, begins, blocks_ended_before, chains, created,
    drive, ends, find_blocks, find_ignores, has_disable_assume_in_transaction, histories_grow,
    ignore_rule_info, insertion_fix, is_in_block, name_at, replacement_fix, report_nodes,
    report_ruled, unused_pieces, walk,
};

// What crates above reach through this one.
pub use lint_pass::{
    Edit, Fix, LinterSettings, Names, Reports, Rule, RuleNameError, RuleSet, Text, UnknownName,
    Violation,
};
