//! The linter: which rules it has, its settings, and what it answers.
//!
//! `specs/` says what each call means: `Reports` what is answered for some reports, `Answers` what the linter answers,
//! `Assessments` what is answered together with the work under locks, `CleanAnswers` what it means that nothing is answered,
//! `Headline` what two of its rules answer, said without the passes, `Placed` where reports and edits are, `Mending` what the
//! fixes of an answer do, and `Laws` laws of all this. Which rules a linter has,
//! `RuleChoice` of `lint_base` says, and what the passes report, `pass_groups`. A fix is made in a text by `fix_edit`, and
//! `lock_work` lists the work that statements do under locks; both are reached here too.
#![tactic(auto)]

mod answer;
mod assessment;
pub mod clean;
pub mod laws;
mod lint;
mod linter;

pub use assessment::{Assessed, assess};
pub use fix_edit::{FixError, apply_fix};
pub use law_answers::{Group1, Group2, Group3, Group4, Group5, Group6, Group7, Group8, OwnPasses};
pub use law_clean::{Work, is_plain, lock_work};
pub use lint::lint_text;
pub use linter::Linter;
pub use sql_read::LintError;

// What crates above reach through this one.
pub use fix_edit::{
    Action, Body, ColType, Column, Constraint, Edit, Elem, Expr, Fix, Found, IgnorePiece,
    LinterSettings, NamePath, Names, NoMemory, NoPass, OpenTransaction, Pair, Parse, Pass, Piece,
    Reports, RequireConcurrentIndexCreation, Rule, RuleSet, SetPart, Span, StatementPass, StepPass,
    Steps, Stmt, TableWrite, TablesCreatedInTransaction, Target, Text, TextSize, Tok,
    ViewDefinition, Violation, find_ignores, has_disable_assume_in_transaction, ignore_rule_info,
    unused_pieces,
};
pub use law_answers::BanDropDatabase;
pub use law_clean::numbers_count;
pub use sql_read;
