//! Fixing a text until no fix is left that fits.
ghost use Rattle.std.specs.Prelude.{◌≡◌, ◌↔◌, ◌≤◌, ◌<◌, ◌^◌, ℕ, length, Err, IfOk, IfErr, string_bytes};
ghost use Rattle.law_next_fix.specs.sql_token.Token.{OpenAt};
ghost use Rattle.law_next_fix.specs.sql_tree.Statement.{IsSyntaxAt, IsValid, Tree};
ghost use Rattle.law_next_fix.specs.sql_read.declared.error.LintError.TheVariants as LintError;
ghost use Rattle.law_next_fix.specs.sql_read.Cause.{ErrOrNoMemory, IsCause, IsTreeOf, OkOrNoMemory};
ghost use Rattle.law_next_fix.specs.squawk_linter.Answers.{IsAnswer, SettingsAfter};
ghost use Rattle.law_next_fix.specs.squawk_linter.Reports.{cleared};
ghost use Rattle.squawk_fix.specs.Fixing.{IsFixed, IsFixedText};

use crate::round::{is_plain, next_round};
use law_next_fix::laws::fitting_fixes_step;
use law_next_fix::{
    LintError, Linter, Parse, lint_text, load_is_small, second_answer, sql_read_parse as parse,
};
use squawk_run::{NoMemory, Violation};
use std::alloc::Global;
use std::marker::Model;

/// What fixing makes of a text.
#[derive(Debug, Drop)]
pub struct Fixed {
    /// The text in which the fixes were made.
    pub text: String,
    /// How many fixes were made.
    pub applied: u64,
    /// What is reported of it, those of [`lint_text`]. No report of a listed rule has a fix that fits.
    pub left: Vec<Violation>,
}

impl Model for Fixed {
    ghost use Rattle.std.specs.Prelude.{string_bytes};
    ghost use Rattle.squawk_fix.specs.Fixing.{FixedValue};

    ghost Value = { FixedValue };

    ghost view = { λ f. record { text = string_bytes f.text; applied = f.applied; left = f.left.items } };
}

// Lints a text that is valid, and puts the flag of the settings back, which a comment of the text may clear.
fn lint_again(linter: &mut Linter, alloc: Global, text: &str) -> Result<Vec<Violation>, NoMemory>
    requires { IsValid text.now }
    ensures ok { IfOk result (λ v. IsAnswer text.now linter.old.rules linter.old.settings v.items) }
    ensures same { linter.new ≡ linter.old }
{
    let assumed = linter.settings.assume_in_transaction;
    let reports = lint_text(linter, alloc, text);
    linter.settings.assume_in_transaction = assumed;
    match reports {
        Ok(reports) => Ok(reports),
        Err(LintError::NoMemory) => Err(NoMemory),
        Err(_) => unreachable!(),
    }
}

// Fixes the text of a tree. The tree stays as it is read: what its load was bounds how often a fix can be made.
fn fix_tree(linter: &mut Linter, alloc: Global, file: &Parse<'_>) -> Result<Fixed, NoMemory>
    ensures ok { IfOk result (λ fixed. IsFixed file.now linter.old.rules linter.old.settings fixed) }
    ensures rules { linter.new.rules ≡ linter.old.rules }
    ensures settings { linter.new.settings ≡ cleared file.now linter.old.settings }
{
    second_answer();
    fitting_fixes_step();
    load_is_small();
    let mut left = linter.lint(alloc, file)?;
    let mut made = String::from_str(alloc, file.text())?;
    let plain = is_plain(alloc, file)?;
    let mut applied = 0;
    while let Some(round) = next_round(alloc, plain, made.as_str(), left.as_slice())? {
        left = lint_again(linter, alloc, round.text.as_str())?;
        made = round.text;
        applied += round.applied;
    }
    Ok(Fixed {
        text: made,
        applied,
        left,
    })
}

/// Makes fixes in a text, one after another, until none is left that fits, and says what is still reported.
///
/// Each time the first fix is made that is of a listed rule and fits. The text is not linted again where it is known what the fix does
/// to the other reports: in a text without ignore comments many fixes are made of one answer (`round`). It refuses as [`lint_text`] refuses the
/// given text, and leaves the linter as that does: `TooLong`, `Unterminated` and `Syntax` come of the given text, since each text that is
/// made is valid; `NoMemory` comes because memory ran out.
pub fn fix_all(linter: &mut Linter, alloc: Global, text: &str) -> Result<Fixed, LintError>
    ensures ok { IfOk result (λ fixed. IsFixedText text.now linter.old.rules linter.old.settings fixed) }
    ensures readable { IfOk result (λ fixed. IsValid fixed.text) }
    ensures err { IfErr result (IsCause text.now) }

    // Running out of memory is the one answer whose coming is left open.
    ensures too_long { (result ≡ Err LintError.TooLong) ↔ (2 ^ 32 ≤ length text.now) }
    ensures valid { (tree : Tree) → IsTreeOf text.now tree
        → OkOrNoMemory result (λ fixed. IsFixed tree linter.old.rules linter.old.settings fixed) }
    ensures unterminated { (at : ℕ) → length text.now < 2 ^ 32 → OpenAt text.now at
        → ErrOrNoMemory result (LintError.Unterminated at) }
    ensures syntax { (at : ℕ) → IsSyntaxAt text.now at → ErrOrNoMemory result (LintError.Syntax at) }

    ensures rules { linter.new.rules ≡ linter.old.rules }
    ensures settings { SettingsAfter text.now linter.old.settings linter.new.settings result }
{
    let file = parse(alloc, text)?;
    match fix_tree(linter, alloc, &file) {
        Ok(fixed) => Ok(fixed),
        Err(NoMemory) => Err(LintError::NoMemory),
    }
}
