//! Passes that take one statement after another.

ghost use Rattle.std.specs.Prelude.{◌≡◌, ◌+◌, ◌<◌, ◌++◌, length, true, OnOk, OnErr, IfOk};
ghost use Rattle.lint_base.specs.Grown.{GrownBy};
ghost use Rattle.lint_transaction.specs.Transaction.{stmt_at};
ghost use Rattle.lint_pass.specs.Cleared.{IsCleared};

use crate::seen::Seen;
use lint_base::{LinterSettings, NoMemory, Reports, RuleSet};
use lint_ignore::{Parse, Stmt};
use std::alloc::Global;

/// A pass that takes one statement after another, so that one walk can feed many. It reports on one statement after
/// another, and then adds its tail.
///
/// A state belongs to one walk: the pass, tree, rules and settings of all its calls are the same. It holds no text of the
/// tree, which is at hand in each call.
pub trait StepPass {
    ghost use Rattle.std.specs.Prelude.{ℕ, Bool, List, All};
    ghost use Rattle.lint_ignore.specs.sql_tree.Statement.{Tree};
    ghost use Rattle.lint_base.specs.RuleSets.{Rules, has};
    ghost use Rattle.lint_base.specs.declared.rule.Rule.{Rule};
    ghost use Rattle.lint_base.specs.declared.settings.LinterSettings.{LinterSettings};
    ghost use Rattle.lint_base.specs.declared.violation.Violation.{Violation};
    ghost use Rattle.lint_transaction.specs.Earlier.{concat_below};
    ghost use Rattle.lint_transaction.specs.Tracking.{IsTracking};
    ghost use Rattle.lint_pass.specs.Blocks.{blocks_of};
    ghost use Rattle.lint_pass.specs.Laws.{IsOf, IsRead, IsPlacedIn, reports_by};

    /// The rules that it reports.
    ghost own: { Self → Rules };

    /// What the pass remembers of the statements that it was given.
    type State: Drop;

    /// A state is the one after the first statements of a tree, under rules and settings; the number says how many.
    ghost at: { Self → Self.State → Tree → Rules → LinterSettings → ℕ → Type 0 };

    /// Whether it looks at the blocks of a text, under these rules.
    ghost wants: { Self → Rules → Bool };

    /// The reports on the statement of this number.
    ghost reports_at: { Self → Tree → Rules → LinterSettings → ℕ → List Violation };

    /// The reports after the last statement.
    ghost tail: { Self → Tree → Rules → LinterSettings → List Violation };

    /// All reports for a tree, rules and settings.
    ghost table: { Self → Tree → Rules → LinterSettings → List Violation };

    /// The reports on the statements in order, and then the tail, are the table.
    ghost whole: { (x : Self) (tree : Tree) (r : Rules) (s : LinterSettings) → concat_below (reports_at x tree r s) (length tree.stmts) ++ tail x tree r s ≡ table x tree r s };

    /// Each report is of a rule of its own that is enabled.
    ghost coded: { (x : Self) (tree : Tree) (r : Rules) (s : LinterSettings) → All (IsOf (own x) r) (table x tree r s) };

    /// Each report is in the text.
    ghost placed: { (x : Self) (tree : Tree) (r : Rules) (s : LinterSettings) → IsRead tree → All (IsPlacedIn tree) (table x tree r s) };

    /// A rule's reports are the same whichever other rules are enabled.
    ghost apart: { (x : Self) (tree : Tree) (s : LinterSettings) (q : Rule) (some others : Rules) → has some q ≡ has others q → reports_by q (table x tree some s) ≡ reports_by q (table x tree others s) };

    /// The rules that it reports.
    fn rules(&self) -> RuleSet
        ensures { result ≡ own self.now };

    /// Whether it looks at the blocks of a text, under these rules. They are looked for only where some pass does.
    fn wants_blocks(&self, rules: &RuleSet) -> bool
        ensures { result ≡ wants self.now rules.now };

    /// The state before the first statement of any text that the settings fit. The error comes when memory runs out.
    fn start(&self, alloc: Global, set: &LinterSettings) -> Result<Self::State, NoMemory>
        ensures { IfOk result (λ state. (tree : Tree) (r : Rules) → IsCleared tree set.now → at self.now state tree r set.now 0) };

    /// Gives the pass statement `i`, counted from 0, with what the walk knows before it, and adds its reports. The error comes when
    /// memory runs out; then a prefix of them has been added, and the state is of no use any more.
    fn step(
        &self,
        state: &mut Self::State,
        p: &Parse<'_>,
        i: u32,
        s: &Stmt,
        seen: &Seen<'_>,
        rules: &RuleSet,
        set: &LinterSettings,
        out: &mut Reports,
    ) -> Result<(), NoMemory>
        requires cleared { IsCleared p.now set.now }
        requires state { at self.now state.old p.now rules.now set.now i }
        requires within { i < length p.now.stmts }
        requires stmt { s.now ≡ stmt_at p.now i }
        requires blocks { wants self.now rules.now ≡ true → seen.now.blocks.items ≡ blocks_of p.now }
        requires created { IsTracking p.now set.now.assume_in_transaction i seen.now.created }
        ensures state { OnOk result (at self.now state.new p.now rules.now set.now (i + 1)) }
        ensures ok { OnOk result (out.new ≡ out.old ++ reports_at self.now p.now rules.now set.now i) }
        ensures err { OnErr result (GrownBy out.old out.new (reports_at self.now p.now rules.now set.now i)) };

    /// Takes the state after the last statement, and adds the tail. The error comes when memory runs out; then a first part of the
    /// tail has been added.
    fn finish(
        &self,
        alloc: Global,
        state: Self::State,
        p: &Parse<'_>,
        rules: &RuleSet,
        set: &LinterSettings,
        out: &mut Reports,
    ) -> Result<(), NoMemory>
        requires cleared { IsCleared p.now set.now }
        requires state { at self.now state p.now rules.now set.now (length p.now.stmts) }
        ensures ok { OnOk result (out.new ≡ out.old ++ tail self.now p.now rules.now set.now) }
        ensures err { OnErr result (GrownBy out.old out.new (tail self.now p.now rules.now set.now)) };
}
