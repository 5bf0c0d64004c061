//! The diagnostics of a text.
ghost use Rattle.std.specs.Prelude.{◌≡◌, ◌↔◌, ◌≤◌, ◌<◌, ◌^◌, ℕ, length, Err, IfOk, IfErr};
ghost use Rattle.squawk_linter.specs.sql_token.Token.{OpenAt};
ghost use Rattle.squawk_linter.specs.sql_tree.Statement.{IsSyntaxAt, Tree};
ghost use Rattle.squawk_linter.specs.sql_read.declared.error.LintError.TheVariants as LintError;
ghost use Rattle.squawk_linter.specs.sql_read.Cause.{ErrOrNoMemory, IsCause, IsTreeOf, OkOrNoMemory};
ghost use Rattle.squawk_linter.specs.Answers.{SettingsAfter, reports};
ghost use Rattle.diag_report.specs.Diagnostics.{diagnostics_of};
ghost use Rattle.squawk_diag.specs.Diagnosed.{AreDiagnostics};

use diag_report::{Diagnostic, diagnostics_of};
use squawk_linter::{LintError, Linter, NoMemory, lint_text};
use std::alloc::Global;

/// Lints a text, and gives its reports with positions as editors count them.
///
/// It refuses as [`lint_text`] does, and leaves the linter as that does. Each range, of a report or of an edit, begins and ends
/// between two characters, so [`PosIndex::at`](crate::PosIndex::at) gives its places back.
pub fn diagnose(
    linter: &mut Linter,
    alloc: Global,
    text: &str,
) -> Result<Vec<Diagnostic>, LintError>
    ensures ok { IfOk result (λ d. AreDiagnostics text.now linter.old.rules linter.old.settings d.items) }
    ensures err { IfErr result (IsCause text.now) }

    // Running out of memory is the one answer whose coming is left open.
    ensures too_long { (result ≡ Err LintError.TooLong) ↔ (2 ^ 32 ≤ length text.now) }
    ensures valid { (tree : Tree) → IsTreeOf text.now tree
        → OkOrNoMemory result (λ d. d.items ≡ diagnostics_of text.now (reports tree linter.old.rules linter.old.settings)) }
    ensures unterminated { (at : ℕ) → length text.now < 2 ^ 32 → OpenAt text.now at
        → ErrOrNoMemory result (LintError.Unterminated at) }
    ensures syntax { (at : ℕ) → IsSyntaxAt text.now at → ErrOrNoMemory result (LintError.Syntax at) }

    ensures rules { linter.new.rules ≡ linter.old.rules }
    ensures settings { SettingsAfter text.now linter.old.settings linter.new.settings result }
{
    let reports = lint_text(linter, alloc, text)?;
    match diagnostics_of(alloc, text, reports) {
        Ok(diagnostics) => Ok(diagnostics),
        Err(NoMemory) => Err(LintError::NoMemory),
    }
}
