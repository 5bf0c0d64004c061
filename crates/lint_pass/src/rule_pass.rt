//! Passes of one rule.

ghost use Rattle.std.specs.Prelude.{◌≡◌, ◌+◌, ◌<◌, ◌++◌, length, true, OnOk, OnErr, IfOk};
ghost use Rattle.lint_base.specs.Grown.{GrownBy};
ghost use Rattle.lint_transaction.specs.Transaction.{stmt_at};
ghost use Rattle.lint_pass.specs.Cleared.{IsCleared};

use crate::seen::Seen;
use crate::step::StepPass;
use lint_base::{LinterSettings, NoMemory, Reports, Rule, RuleSet};
use lint_ignore::{Parse, Stmt};
use std::alloc::Global;

/// A pass of one rule.
pub trait RulePass {
    ghost use Rattle.std.specs.Prelude.{ℕ, Bool, List, All};
    ghost use Rattle.lint_ignore.specs.sql_tree.Statement.{Tree};
    ghost use Rattle.lint_base.specs.declared.rule.Rule.{Rule};
    ghost use Rattle.lint_base.specs.declared.settings.LinterSettings.{LinterSettings};
    ghost use Rattle.lint_base.specs.declared.violation.Violation.{Violation};
    ghost use Rattle.lint_transaction.specs.Tracking.{IsTracking};
    ghost use Rattle.lint_pass.specs.Blocks.{blocks_of};
    ghost use Rattle.lint_pass.specs.Laws.{HasCode, IsRead, IsPlacedIn};

    /// What it remembers of the statements that it was given.
    type Memory: Drop;

    /// Its rule.
    ghost code: { Self → Rule };

    /// What it remembers right before a statement.
    ghost knows: { Self → Self.Memory → Tree → LinterSettings → ℕ → Type 0 };

    /// Whether it looks at the blocks of a text.
    ghost wants: { Self → Bool };

    /// The reports on a statement, where the rule is enabled.
    ghost reports: { Self → Tree → LinterSettings → ℕ → List Violation };

    /// Each report is of the rule.
    ghost coded: { (x : Self) (tree : Tree) (s : LinterSettings) (i : ℕ) → All (HasCode (code x)) (reports x tree s i) };

    /// Each report is in the text.
    ghost placed: { (x : Self) (tree : Tree) (s : LinterSettings) (i : ℕ) → IsRead tree → All (IsPlacedIn tree) (reports x tree s i) };

    /// Its rule.
    fn code(&self) -> Rule
        ensures { result ≡ code self.now };

    /// Whether it looks at the blocks of a text.
    fn wants_blocks(&self) -> bool
        ensures { result ≡ wants self.now };

    /// What it remembers before the first statement of any text that the settings fit. The error comes when memory runs out.
    fn begin(&self, alloc: Global, set: &LinterSettings) -> Result<Self::Memory, NoMemory>
        ensures { IfOk result (λ m. (tree : Tree) → IsCleared tree set.now → knows self.now m tree set.now 0) };

    /// Reports on statement `i`, counted from 0, and advances past it, by what the walk knows before it. The error comes when memory
    /// runs out; then a prefix of the reports has been added, and the memory is of no use any more.
    fn visit(
        &self,
        memory: &mut Self::Memory,
        p: &Parse<'_>,
        i: u32,
        s: &Stmt,
        seen: &Seen<'_>,
        set: &LinterSettings,
        out: &mut Reports,
    ) -> Result<(), NoMemory>
        requires cleared { IsCleared p.now set.now }
        requires memory { knows self.now memory.old p.now set.now i }
        requires within { i < length p.now.stmts }
        requires stmt { s.now ≡ stmt_at p.now i }
        requires blocks { wants self.now ≡ true → seen.now.blocks.items ≡ blocks_of p.now }
        requires created { IsTracking p.now set.now.assume_in_transaction i seen.now.created }
        ensures memory { OnOk result (knows self.now memory.new p.now set.now (i + 1)) }
        ensures ok { OnOk result (out.new ≡ out.old ++ reports self.now p.now set.now i) }
        ensures err { OnErr result (GrownBy out.old out.new (reports self.now p.now set.now i)) };
}

impl<T: RulePass> StepPass for T {
    ghost use Rattle.std.specs.Prelude.{◌≡◌, ◌&&◌, true, [], length};
    ghost use Rattle.std.proofs.lemmas.List.{append-nil};
    ghost use Rattle.lint_base.specs.RuleSets.{has, no_rules, with_rule};
    ghost use Rattle.lint_pass.specs.Laws.{IsPlacedIn};
    ghost use Rattle.lint_pass.specs.RuleLaws.{rule_all, rule_apart, rule_coded};
    ghost use Rattle.lint_pass.specs.RuleTables.{enabled_reports, table_of};

    type State = T::Memory;

    ghost own = { λ x. with_rule no_rules (T.code x) };

    ghost at = { λ x m tree r s i. has r (T.code x) ≡ true → T.knows x m tree s i };

    ghost wants = { λ x r. has r (T.code x) && T.wants x };

    ghost reports_at = { λ x tree r s i. enabled_reports (T.code x) (T.reports x tree s) r i };

    ghost tail = { λ _ _ _ _. [] };

    ghost table = { λ x tree r s. table_of (T.code x) (T.reports x tree s) r (length tree.stmts) };

    ghost whole = { λ x tree r s. append-nil (table_of (T.code x) (T.reports x tree s) r (length tree.stmts)) };

    ghost coded = { λ x tree r s. rule_coded (T.code x) (T.reports x tree s) r (length tree.stmts) (T.coded x tree s) };

    ghost placed = { λ x tree r s h. rule_all (IsPlacedIn tree) (T.code x) (T.reports x tree s) r (length tree.stmts) (λ i. T.placed x tree s i h) };

    ghost apart = { λ x tree s q some others h. rule_apart (T.code x) (T.reports x tree s) (length tree.stmts) q some others h (T.coded x tree s) };

    fn rules(&self) -> RuleSet {
        let mut rules = RuleSet::empty();
        rules.insert(RulePass::code(self));
        rules
    }

    fn wants_blocks(&self, rules: &RuleSet) -> bool {
        rules.contains(RulePass::code(self)) && RulePass::wants_blocks(self)
    }

    fn start(&self, alloc: Global, set: &LinterSettings) -> Result<T::Memory, NoMemory> {
        self.begin(alloc, set)
    }

    fn step(
        &self,
        state: &mut T::Memory,
        p: &Parse<'_>,
        i: u32,
        s: &Stmt,
        seen: &Seen<'_>,
        rules: &RuleSet,
        set: &LinterSettings,
        out: &mut Reports,
    ) -> Result<(), NoMemory> {
        if !rules.contains(RulePass::code(self)) {
            return Ok(());
        }
        self.visit(state, p, i, s, seen, set, out)?;
        Ok(())
    }

    fn finish(
        &self,
        _alloc: Global,
        _state: T::Memory,
        _p: &Parse<'_>,
        _rules: &RuleSet,
        _set: &LinterSettings,
        _out: &mut Reports,
    ) -> Result<(), NoMemory> {
        Ok(())
    }
}
