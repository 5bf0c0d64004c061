//! Passes of one rule that look at one statement at a time.

ghost use Rattle.std.specs.Prelude.{◌≡◌, ◌++◌, OnOk, OnErr};
ghost use Rattle.lint_base.specs.Grown.{GrownBy};

use crate::rule_pass::RulePass;
use crate::seen::Seen;
use lint_base::{LinterSettings, NoMemory, Reports, Rule};
use lint_ignore::{Parse, Stmt};
use std::alloc::Global;

/// A pass of one rule that looks at one statement at a time.
pub trait StatementPass {
    ghost use Rattle.std.specs.Prelude.{List, All};
    ghost use Rattle.lint_ignore.specs.sql_tree.declared.nodes.Stmt.{Stmt};
    ghost use Rattle.lint_ignore.specs.sql_tree.Statement.{Tree};
    ghost use Rattle.lint_base.specs.declared.rule.Rule.{Rule};
    ghost use Rattle.lint_base.specs.declared.settings.LinterSettings.{LinterSettings};
    ghost use Rattle.lint_base.specs.declared.violation.Violation.{Violation};
    ghost use Rattle.lint_pass.specs.Laws.{HasCode, IsRead, IsPlacedIn};

    /// Its rule.
    ghost code: { Self → Rule };

    /// The reports on a statement, where the rule is enabled.
    ghost reports: { Self → Tree → LinterSettings → Stmt → List Violation };

    /// Each report is of the rule.
    ghost coded: { (x : Self) (tree : Tree) (s : LinterSettings) (t : Stmt) → All (HasCode (code x)) (reports x tree s t) };

    /// Each report is in the text.
    ghost placed: { (x : Self) (tree : Tree) (s : LinterSettings) (t : Stmt) → IsRead tree → All (IsPlacedIn tree) (reports x tree s t) };

    /// Its rule.
    fn code(&self) -> Rule
        ensures { result ≡ code self.now };

    /// Reports on a statement. The error comes when memory runs out; then a first part of the reports has been added.
    fn report(
        &self,
        alloc: Global,
        p: &Parse<'_>,
        s: &Stmt,
        set: &LinterSettings,
        out: &mut Reports,
    ) -> Result<(), NoMemory>
        ensures ok { OnOk result (out.new ≡ out.old ++ reports self.now p.now set.now s.now) }
        ensures err { OnErr result (GrownBy out.old out.new (reports self.now p.now set.now s.now)) };
}

impl<T: StatementPass> RulePass for T {
    ghost use Rattle.std.specs.Prelude.{false};
    ghost use Rattle.lint_transaction.specs.Transaction.{stmt_at};

    type Memory = Global;

    ghost code = { T.code };

    ghost knows = { λ _ _ _ _ _. Unit {0} };

    ghost wants = { λ _. false };

    ghost reports = { λ x tree s i. T.reports x tree s (stmt_at tree i) };

    ghost coded = { λ x tree s i. T.coded x tree s (stmt_at tree i) };

    ghost placed = { λ x tree s i. T.placed x tree s (stmt_at tree i) };

    fn code(&self) -> Rule {
        StatementPass::code(self)
    }

    fn wants_blocks(&self) -> bool {
        false
    }

    fn begin(&self, alloc: Global, _set: &LinterSettings) -> Result<Global, NoMemory> {
        Ok(alloc)
    }

    fn visit(
        &self,
        memory: &mut Global,
        p: &Parse<'_>,
        _i: u32,
        s: &Stmt,
        _seen: &Seen<'_>,
        set: &LinterSettings,
        out: &mut Reports,
    ) -> Result<(), NoMemory> {
        self.report(*memory, p, s, set, out)
    }
}
