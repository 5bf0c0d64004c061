//! What a run finds in a text.
ghost use Rattle.std.specs.Prelude.{◌≡◌, ◌↔◌, [], IsTrue, IfOk, IfErr, true, false};
ghost use Rattle.squawk_linter.specs.sql_read.Cause.{IsCause};
ghost use Rattle.squawk_cli.specs.Findings.{AreFoundIn};

use squawk_linter::{LintError, Linter, Violation, Work, assess, lint_text};
use std::alloc::Global;
use std::marker::Model;

/// The work of a text under locks, and whether the text is plain.
#[derive(Drop)]
pub(crate) struct Locks {
    pub(crate) works: Vec<Work>,
    pub(crate) plain: bool,
}

impl Model for Locks {
    ghost use Rattle.squawk_cli.specs.Findings.{LocksValue};

    ghost Value = { LocksValue };

    ghost view = { λ l. record { works = l.works.items; plain = l.plain } };
}

/// The reports of a text, and its locks where they are asked for.
#[derive(Drop)]
pub(crate) struct Findings {
    pub(crate) violations: Vec<Violation>,
    pub(crate) locks: Option<Locks>,
}

impl Model for Findings {
    ghost use Rattle.squawk_cli.specs.Findings.{FindingsValue};

    ghost Value = { FindingsValue };

    ghost view = { λ f. record { violations = f.violations.items; locks = f.locks } };
}

impl Findings {
    /// Whether nothing is reported.
    pub(crate) fn is_clean(&self) -> bool
        ensures { IsTrue result ↔ (self.now.violations ≡ []) }
    {
        self.violations.is_empty()
    }
}

fn find_reports(alloc: Global, linter: &mut Linter, text: &str) -> Result<Findings, LintError>
    ensures found { IfOk result (λ f. AreFoundIn false text.now linter.old.rules linter.old.settings f) }
    ensures err { IfErr result (IsCause text.now) }
{
    let violations = lint_text(linter, alloc, text)?;
    Ok(Findings {
        violations,
        locks: None,
    })
}

fn find_with_locks(alloc: Global, linter: &mut Linter, text: &str) -> Result<Findings, LintError>
    ensures found { IfOk result (λ f. AreFoundIn true text.now linter.old.rules linter.old.settings f) }
    ensures err { IfErr result (IsCause text.now) }
{
    let assessed = assess(linter, alloc, text)?;
    Ok(Findings {
        violations: assessed.violations,
        locks: Some(Locks {
            works: assessed.works,
            plain: assessed.plain,
        }),
    })
}

/// Reads a text and lints it, and finds its locks where they are asked for.
pub(crate) fn find(
    alloc: Global,
    linter: &mut Linter,
    locks: bool,
    text: &str,
) -> Result<Findings, LintError>
    ensures found { IfOk result (λ f. AreFoundIn locks text.now linter.old.rules linter.old.settings f) }
    ensures err { IfErr result (IsCause text.now) }
{
    if locks {
        find_with_locks(alloc, linter, text)
    } else {
        find_reports(alloc, linter, text)
    }
}
