//! Linting.
ghost use Rattle.std.specs.Prelude.{◌≡◌, ◌≤◌, ◌<◌, ◌^◌, ◌+◌, ◌*◌, ◌↔◌, ℕ, All, length, IfOk, IfErr};
ghost use Rattle.sql_read.specs.sql_token.Token.{OpenAt};
ghost use Rattle.sql_read.specs.sql_tree.Statement.{Tree, IsTree, IsSyntaxAt};
ghost use Rattle.sql_read.specs.Cause.{IsCause, IsTreeOf, OkOrNoMemory, ErrOrNoMemory};
ghost use Rattle.fix_edit.specs.lint_pass.Cleared.{IsCleared};
ghost use Rattle.fix_edit.specs.lint_pass.Ranges.{AllLieIn};
ghost use Rattle.squawk_linter.specs.Answers.{IsAnswer, SettingsAfter, reports};
ghost use Rattle.squawk_linter.specs.Placed.{IsPlaced};
ghost use Rattle.squawk_linter.specs.Headline.{HasNoIgnoreComment, headline_of, headline_reports};
ghost use Rattle.squawk_linter.specs.Reports.{cleared, reports_from};

use crate::answer::answer;
use crate::laws::{headline, placed};
use crate::linter::Linter;
use fix_edit::{
    LinterSettings, Pass, Reports, RuleSet, StepPass, Steps, Violation, drive,
    has_disable_assume_in_transaction,
};
use law_answers::OwnPasses;
use sql_read::sql_tree::Parse;
use sql_read::{LintError, NoMemory, parse};
use std::alloc::Global;
use std::sync::ledger::Ledger;

// Clears the flag where a comment says that no open transaction is to be assumed.
fn clear(file: &Parse<'_>, settings: &mut LinterSettings)
    ensures { settings.new ≡ cleared file.now settings.old }
{
    if settings.assume_in_transaction && has_disable_assume_in_transaction(file) {
        settings.assume_in_transaction = false;
    }
}

// The reports of a pass.
fn found_by<P: Pass>(
    alloc: Global,
    file: &Parse<'_>,
    pass: &P,
    rules: &RuleSet,
    settings: &LinterSettings,
) -> Result<Reports, NoMemory>
    requires { IsCleared file.now settings.now }
    ensures { IfOk result (λ found. found ≡ P.table pass.now file.now rules.now settings.now) }
{
    let mut found = Reports::new(alloc);
    pass.run(alloc, file, rules, settings, &mut found)?;
    Ok(found)
}

// The same of a step pass, whose steps are counted.
fn counted_by<P: StepPass, L: Ledger>(
    alloc: Global,
    file: &Parse<'_>,
    pass: &P,
    rules: &RuleSet,
    settings: &LinterSettings,
    steps: &mut Steps<L>,
) -> Result<Reports, NoMemory>
    requires { IsCleared file.now settings.now }
    ensures found { IfOk result (λ found. found ≡ P.table pass.now file.now rules.now settings.now) }
    ensures steps { steps.new ≤ steps.old + 2 * length file.now.stmts }
{
    let mut found = Reports::new(alloc);
    drive(alloc, pass, file, rules, settings, &mut found, steps)?;
    Ok(found)
}

impl Linter {
    // Lints a tree, whose text is `text`, with a pass.
    fn lint_by<P: Pass>(
        &mut self,
        alloc: Global,
        file: &Parse<'_>,
        text: &str,
        pass: &P,
    ) -> Result<Vec<Violation>, NoMemory>
        requires text { text.now ≡ file.now.text }
        requires tree { IsTree file.now }
        requires lie { AllLieIn file.now (P.table pass.now file.now self.old.rules (cleared file.now self.old.settings)) }
        ensures ok { IfOk result (λ v. v.items ≡ reports_from file.now (P.table pass.now file.now self.old.rules (cleared file.now self.old.settings)) self.old.rules) }
        ensures rules { self.new.rules ≡ self.old.rules }
        ensures settings { self.new.settings ≡ cleared file.now self.old.settings }
    {
        clear(file, &mut self.settings);
        let found = found_by(alloc, file, pass, &self.rules, &self.settings)?;
        answer(alloc, file, text, &self.rules, found)
    }

    // The same with a step pass, and counts the steps of the walk over the statements.
    fn lint_counted_by<P: StepPass, L: Ledger>(
        &mut self,
        alloc: Global,
        file: &Parse<'_>,
        text: &str,
        pass: &P,
        steps: &mut Steps<L>,
    ) -> Result<Vec<Violation>, NoMemory>
        requires text { text.now ≡ file.now.text }
        requires tree { IsTree file.now }
        requires lie { AllLieIn file.now (P.table pass.now file.now self.old.rules (cleared file.now self.old.settings)) }
        ensures ok { IfOk result (λ v. v.items ≡ reports_from file.now (P.table pass.now file.now self.old.rules (cleared file.now self.old.settings)) self.old.rules) }
        ensures rules { self.new.rules ≡ self.old.rules }
        ensures settings { self.new.settings ≡ cleared file.now self.old.settings }
        ensures steps { steps.new ≤ steps.old + 2 * length file.now.stmts }
    {
        clear(file, &mut self.settings);
        let found = counted_by(alloc, file, pass, &self.rules, &self.settings, steps)?;
        answer(alloc, file, text, &self.rules, found)
    }

    /// Lints a tree with a pass in place of the linter's own ones. Before, it clears the flag of the
    /// settings where a comment says that no open transaction is to be assumed; it changes nothing
    /// else of the linter, and also clears the flag where it fails.
    ///
    /// The error comes when memory runs out.
    pub fn lint_with<P: Pass>(
        &mut self,
        alloc: Global,
        file: &Parse<'_>,
        pass: &P,
    ) -> Result<Vec<Violation>, NoMemory>
        requires { AllLieIn file.now (P.table pass.now file.now self.old.rules (cleared file.now self.old.settings)) }
        ensures ok { IfOk result (λ v. v.items ≡ reports_from file.now (P.table pass.now file.now self.old.rules (cleared file.now self.old.settings)) self.old.rules) }
        ensures rules { self.new.rules ≡ self.old.rules }
        ensures settings { self.new.settings ≡ cleared file.now self.old.settings }
    {
        self.lint_by(alloc, file, file.text(), pass)
    }

    /// Lints a tree with the linter's own passes. Before, it clears the flag of the settings where a
    /// comment says that no open transaction is to be assumed; it changes nothing else of the
    /// linter, and also clears the flag where it fails.
    ///
    /// The error comes when memory runs out.
    pub fn lint(&mut self, alloc: Global, file: &Parse<'_>) -> Result<Vec<Violation>, NoMemory>
        ensures ok { IfOk result (λ v. v.items ≡ reports file.now self.old.rules self.old.settings) }
        ensures places { IfOk result (λ v. All (IsPlaced file.now.text) v.items) }
        ensures rules { self.new.rules ≡ self.old.rules }
        ensures settings { self.new.settings ≡ cleared file.now self.old.settings }
    {
        placed(file, &OwnPasses);
        self.lint_by(alloc, file, file.text(), &OwnPasses)
    }

    /// Lints a tree as [`Linter::lint`] does, and counts the steps of the walk over its statements.
    pub fn lint_counted<L: Ledger>(
        &mut self,
        alloc: Global,
        file: &Parse<'_>,
        steps: &mut Steps<L>,
    ) -> Result<Vec<Violation>, NoMemory>
        ensures ok { IfOk result (λ v. v.items ≡ reports file.now self.old.rules self.old.settings) }
        ensures places { IfOk result (λ v. All (IsPlaced file.now.text) v.items) }
        ensures rules { self.new.rules ≡ self.old.rules }
        ensures settings { self.new.settings ≡ cleared file.now self.old.settings }
        ensures steps { steps.new ≤ steps.old + 2 * length file.now.stmts }
    {
        placed(file, &OwnPasses);
        self.lint_counted_by(alloc, file, file.text(), &OwnPasses, steps)
    }
}

/// Reads a text and lints it.
///
/// `TooLong`, `Unterminated` and `Syntax` come as [`parse`] gives them, and leave the linter as it
/// was; `NoMemory` comes because memory ran out.
pub fn lint_text(
    linter: &mut Linter,
    alloc: Global,
    text: &str,
) -> Result<Vec<Violation>, LintError>
    ensures ok { IfOk result (λ v. IsAnswer text.now linter.old.rules linter.old.settings v.items) }
    ensures err { IfErr result (IsCause text.now) }

    // No clause says when memory runs out.
    ensures too_long { (result ≡ Err LintError.TooLong) ↔ (2 ^ 32 ≤ length text.now) }
    ensures valid { (tree : Tree) → IsTreeOf text.now tree
        → OkOrNoMemory result (λ v. v.items ≡ reports tree linter.old.rules linter.old.settings) }
    ensures unterminated { (at : ℕ) → length text.now < 2 ^ 32 → OpenAt text.now at
        → ErrOrNoMemory result (LintError.Unterminated at) }
    ensures syntax { (at : ℕ) → IsSyntaxAt text.now at → ErrOrNoMemory result (LintError.Syntax at) }

    // What the rules on index builds and on added constraints say of a text without ignore comments.
    ensures headline { IfOk result (λ v. (tree : Tree) → IsTreeOf text.now tree → HasNoIgnoreComment tree
        → headline_of tree v.items ≡ headline_reports tree linter.old.rules (cleared tree linter.old.settings).assume_in_transaction) }
    ensures places { IfOk result (λ v. All (IsPlaced text.now) v.items) }

    ensures rules { linter.new.rules ≡ linter.old.rules }
    ensures settings { SettingsAfter text.now linter.old.settings linter.new.settings result }
{
    headline();
    let file = parse(alloc, text)?;
    match linter.lint(alloc, &file) {
        Ok(reports) => Ok(reports),
        Err(NoMemory) => Err(LintError::NoMemory),
    }
}
