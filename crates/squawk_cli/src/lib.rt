//! The linter as a command: the words after the program's name, what a run reads, prints and answers, and the run itself
//! over any source and sinks.
#![tactic(auto)]

mod command;
mod config;
mod findings;
mod input;
pub mod laws;
mod modes;

pub use command::run;
pub use config::{Config, read_words};
pub use squawk_print_locks::{
    WriteError, print_violations, printed_form_is_exact, write_violations,
};
pub use squawk_run::{
    Failed, MemSink, MemSource, Sink, SliceSource, Source, Status, StdSink, StdSource, Words, say,
};

// What crates above reach through this one.
pub use squawk_linter::laws::placed;
pub use squawk_linter::{
    Action, Assessed, BanDropDatabase, Body, ColType, Column, Constraint, Edit, Elem, Expr, Fix,
    FixError, Found, IgnorePiece, Linter, LinterSettings, NamePath, Names, NoPass, OpenTransaction,
    Pair, Parse, Pass, Piece, Reports, RequireConcurrentIndexCreation, Rule, RuleSet, SetPart,
    Span, StatementPass, StepPass, Steps, Stmt, TableWrite, TablesCreatedInTransaction, Target,
    Text, ViewDefinition, Violation, Work, apply_fix, assess, find_ignores,
    has_disable_assume_in_transaction, ignore_rule_info, is_plain, lint_text, lock_work, sql_read,
    unused_pieces,
};
pub use squawk_print_locks::{LockKind, analyze};
pub use squawk_run::{FileError, FileStore, MemWriter, Written, read_to_end, write_all};
