//! Linting together with the work under locks.
ghost use Rattle.std.specs.Prelude.{◌≡◌, ◌≤◌, ◌<◌, ◌^◌, ◌↔◌, ℕ, length, IfOk, IfErr};
ghost use Rattle.sql_read.specs.sql_token.Token.{OpenAt};
ghost use Rattle.sql_read.specs.sql_tree.Statement.{Tree, IsSyntaxAt};
ghost use Rattle.sql_read.specs.Cause.{IsCause, IsTreeOf, OkOrNoMemory, ErrOrNoMemory};
ghost use Rattle.squawk_linter.specs.Answers.{SettingsAfter};
ghost use Rattle.squawk_linter.specs.Assessments.{IsAssessment, assessment};
ghost use Rattle.squawk_linter.specs.CleanAnswers.{IsCleanAnswer, WorksAlone};
ghost use Rattle.squawk_linter.specs.Reports.{cleared};

use crate::clean::clean_answers;
use crate::linter::Linter;
use fix_edit::Violation;
use law_clean::{Work, is_plain, lock_work};
use sql_read::sql_tree::Parse;
use sql_read::{LintError, NoMemory, parse};
use std::alloc::Global;
use std::marker::Model;

/// What a linter reports of a text, and what the text does under locks.
#[derive(Debug, Drop)]
pub struct Assessed {
    /// The reports, those of [`lint_text`](crate::lint_text).
    pub violations: Vec<Violation>,
    /// The work under locks, that of [`lock_work`] under the linter's settings, the flag cleared where a comment says that no
    /// open transaction is to be assumed.
    pub works: Vec<Work>,
    /// Whether the text is plain, as [`is_plain`] says.
    pub plain: bool,
}

impl Model for Assessed {
    ghost use Rattle.squawk_linter.specs.Assessments.{Assessment};

    ghost Value = { Assessment };

    ghost view = { λ a. record { violations = a.violations.items; works = a.works.items; plain = a.plain } };
}

// All that is answered for a tree: its reports first, and then its work under the settings as they are left.
fn assess_tree(linter: &mut Linter, alloc: Global, file: &Parse<'_>) -> Result<Assessed, NoMemory>
    ensures ok { IfOk result (λ a. a ≡ assessment file.now linter.old.rules linter.old.settings) }
    ensures rules { linter.new.rules ≡ linter.old.rules }
    ensures settings { linter.new.settings ≡ cleared file.now linter.old.settings }
{
    let violations = linter.lint(alloc, file)?;
    let works = lock_work(alloc, file, &linter.settings)?;
    Ok(Assessed {
        violations,
        works,
        plain: is_plain(file),
    })
}

/// Reads a text once, lints it, and lists the work that it does under locks.
///
/// It refuses as [`lint_text`](crate::lint_text) does, and leaves the linter as that does: `TooLong`, `Unterminated` and
/// `Syntax` come as [`parse`] gives them, and leave the linter as it was; `NoMemory` comes because memory ran out.
pub fn assess(linter: &mut Linter, alloc: Global, text: &str) -> Result<Assessed, LintError>
    ensures ok { IfOk result (λ a. IsAssessment text.now linter.old.rules linter.old.settings a) }
    ensures err { IfErr result (IsCause text.now) }

    // No clause says when memory runs out.
    ensures too_long { (result ≡ Err LintError.TooLong) ↔ (2 ^ 32 ≤ length text.now) }
    ensures valid { (tree : Tree) → IsTreeOf text.now tree
        → OkOrNoMemory result (λ a. a ≡ assessment tree linter.old.rules linter.old.settings) }
    ensures unterminated { (at : ℕ) → length text.now < 2 ^ 32 → OpenAt text.now at
        → ErrOrNoMemory result (LintError.Unterminated at) }
    ensures syntax { (at : ℕ) → IsSyntaxAt text.now at → ErrOrNoMemory result (LintError.Syntax at) }

    // What it means that nothing is reported of a plain text without ignore comments, under the rules of the default set.
    ensures clean { IfOk result (λ a. (tree : Tree) → IsTreeOf text.now tree
        → IsCleanAnswer tree linter.old.rules a.violations a.plain → WorksAlone tree linter.old.settings a.works) }

    ensures rules { linter.new.rules ≡ linter.old.rules }
    ensures settings { SettingsAfter text.now linter.old.settings linter.new.settings result }
{
    clean_answers();
    let file = parse(alloc, text)?;
    match assess_tree(linter, alloc, &file) {
        Ok(assessed) => Ok(assessed),
        Err(NoMemory) => Err(LintError::NoMemory),
    }
}
