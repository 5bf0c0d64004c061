//! Passes.

ghost use Rattle.std.specs.Prelude.{◌≡◌, ◌++◌, OnOk, OnErr};
ghost use Rattle.lint_base.specs.Grown.{GrownBy};
ghost use Rattle.lint_pass.specs.Cleared.{IsCleared};

use crate::feed::walk;
use crate::step::StepPass;
use lint_base::{LinterSettings, NoMemory, Reports, RuleSet};
use lint_ignore::Parse;
use std::alloc::Global;

/// What a linter looks for in a tree. It reports its table: one list of reports for each tree, rules and settings.
pub trait Pass {
    ghost use Rattle.std.specs.Prelude.{List};
    ghost use Rattle.lint_ignore.specs.sql_tree.Statement.{Tree};
    ghost use Rattle.lint_base.specs.RuleSets.{Rules};
    ghost use Rattle.lint_base.specs.declared.settings.LinterSettings.{LinterSettings};
    ghost use Rattle.lint_base.specs.declared.violation.Violation.{Violation};

    /// The rules that it reports.
    ghost own: { Self → Rules };

    /// The reports for a tree, rules and settings.
    ghost table: { Self → Tree → Rules → LinterSettings → List Violation };

    /// The rules that it reports.
    fn rules(&self) -> RuleSet
        ensures { result ≡ own self.now };

    /// Adds its reports for a tree, those of enabled rules alone. The settings assume no transaction where a comment of
    /// the text says so (`lint_ignore::has_disable_assume_in_transaction`). The error comes when memory runs out; then a first
    /// part of the reports has been added.
    fn run(
        &self,
        alloc: Global,
        p: &Parse<'_>,
        rules: &RuleSet,
        set: &LinterSettings,
        out: &mut Reports,
    ) -> Result<(), NoMemory>
        requires { IsCleared p.now set.now }
        ensures ok { OnOk result (out.new ≡ out.old ++ table self.now p.now rules.now set.now) }
        ensures err { OnErr result (GrownBy out.old out.new (table self.now p.now rules.now set.now)) };
}

impl<P: StepPass> Pass for P {
    ghost own = { P.own };

    ghost table = { P.table };

    fn rules(&self) -> RuleSet {
        StepPass::rules(self)
    }

    fn run(
        &self,
        alloc: Global,
        p: &Parse<'_>,
        rules: &RuleSet,
        set: &LinterSettings,
        out: &mut Reports,
    ) -> Result<(), NoMemory> {
        walk(alloc, self, p, rules, set, out)
    }
}
