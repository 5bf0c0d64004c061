//! The reports of statements that can't be run again, and their fixes.

ghost use Rattle.std.specs.Prelude.{◌≡◌, IfOk};
ghost use Rattle.pass_history.specs.PreferRobustStmts as spec;

use lint_pass::{Fix, NoMemory, Rule, Text, TextRange, Violation, insertion_fix};
use sql_tree::Parse;
use std::alloc::Global;

const NO_EXISTS: &str =
    "missing `if exists`, the migration can't be rerun if it fails part way through";

const NO_NOT_EXISTS: &str =
    "missing `if not exists`, the migration can't be rerun if it fails part way through";

const NO_TRANSACTION: &str =
    "missing transaction, the migration can't be rerun if it fails part way through";

pub(crate) const EXISTS_TITLE: &str = "Insert `if exists`";

pub(crate) const NOT_EXISTS_TITLE: &str = "Insert `if not exists`";

fn robust_report(message: Text, text_range: TextRange, fix: Option<Fix>) -> Violation
    ensures { result ≡ spec.robust_report message text_range fix }
{
    Violation {
        code: Rule::PreferRobustStmts,
        message,
        text_range,
        note: None,
        help: None,
        fix,
    }
}

#[tactic(auto, unfolding(crate::specs::PreferRobustStmts::missing_exists))]
pub(crate) fn missing_exists(range: TextRange, fix: Option<Fix>) -> Violation
    ensures { result ≡ spec.missing_exists range fix }
{
    robust_report(Text::plain(NO_EXISTS), range, fix)
}

#[tactic(auto, unfolding(crate::specs::PreferRobustStmts::missing_not_exists))]
pub(crate) fn missing_not_exists(range: TextRange, fix: Option<Fix>) -> Violation
    ensures { result ≡ spec.missing_not_exists range fix }
{
    robust_report(Text::plain(NO_NOT_EXISTS), range, fix)
}

#[tactic(auto, unfolding(crate::specs::PreferRobustStmts::no_transaction))]
pub(crate) fn no_transaction(range: TextRange) -> Violation
    ensures { result ≡ spec.no_transaction range }
{
    robust_report(Text::plain(NO_TRANSACTION), range, None)
}

/// A fix that inserts a text at the end of a word, where the word is written.
#[tactic(auto, unfolding(crate::specs::PreferRobustStmts::after_word))]
pub(crate) fn after_word(
    alloc: Global,
    p: &Parse<'_>,
    title: Text,
    text: Text,
    word: Option<u32>,
) -> Result<Option<Fix>, NoMemory>
    ensures { IfOk result (λ fix. fix ≡ spec.after_word p.now title text word) }
{
    match word {
        Some(word) => {
            let fix = insertion_fix(alloc, title, text, p.span_range(word, word).end())?;
            Ok(Some(fix))
        }
        None => Ok(None),
    }
}

/// A fix that inserts a text at the start of a token, where there is one.
#[tactic(auto, unfolding(crate::specs::PreferRobustStmts::before_word))]
pub(crate) fn before_word(
    alloc: Global,
    p: &Parse<'_>,
    title: Text,
    text: Text,
    word: Option<u32>,
) -> Result<Option<Fix>, NoMemory>
    ensures { IfOk result (λ fix. fix ≡ spec.before_word p.now title text word) }
{
    match word {
        Some(word) => {
            let fix = insertion_fix(alloc, title, text, p.span_range(word, word).start())?;
            Ok(Some(fix))
        }
        None => Ok(None),
    }
}
