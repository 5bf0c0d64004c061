//! Passes that are skipped unless one of their rules is enabled.

ghost use Rattle.std.specs.Prelude.{◌≡◌, ◌+◌, ◌<◌, ◌++◌, length, true, OnOk, OnErr, IfOk};
ghost use Rattle.lint_base.specs.Grown.{GrownBy};
ghost use Rattle.lint_pass.specs.Enabled.{some_enabled};

use crate::seen::Seen;
use crate::step::StepPass;
use lint_base::{LinterSettings, NoMemory, Reports, RuleSet};
use lint_ignore::{Parse, Stmt};
use std::alloc::Global;

/// A pass that is skipped unless one of its rules is enabled. It reports what the pass reports. A linter with few rules so
/// passes over a whole [`crate::Pair`] of passes by one test.
#[derive(Drop)]
pub struct WhereEnabled<P> {
    pub pass: P,
}

impl<P: StepPass> WhereEnabled<P> {
    /// Whether some rule of the pass is enabled.
    #[inline(always)]
    fn has_enabled_rule(&self, rules: &RuleSet) -> bool
        ensures { result ≡ some_enabled (P.own self.now.pass) rules.now }
    {
        self.pass.rules().intersects(*rules)
    }
}

impl<P: StepPass> StepPass for WhereEnabled<P> {
    ghost use Rattle.std.specs.Prelude.{true};
    ghost use Rattle.lint_pass.specs.Enabled.{some_enabled};

    type State = P::State;

    ghost own = { λ x. P.own x.pass };

    ghost at = { λ x state tree r s i. some_enabled (P.own x.pass) r ≡ true → P.at x.pass state tree r s i };

    ghost wants = { λ x. P.wants x.pass };

    ghost reports_at = { λ x. P.reports_at x.pass };

    ghost tail = { λ x. P.tail x.pass };

    ghost table = { λ x. P.table x.pass };

    ghost whole = { λ x. P.whole x.pass };

    ghost coded = { λ x. P.coded x.pass };

    ghost placed = { λ x. P.placed x.pass };

    ghost apart = { λ x. P.apart x.pass };

    fn rules(&self) -> RuleSet {
        self.pass.rules()
    }

    fn wants_blocks(&self, rules: &RuleSet) -> bool {
        self.pass.wants_blocks(rules)
    }

    fn start(&self, alloc: Global, set: &LinterSettings) -> Result<P::State, NoMemory> {
        self.pass.start(alloc, set)
    }

    #[inline(always)]
    fn step(
        &self,
        state: &mut P::State,
        p: &Parse<'_>,
        i: u32,
        s: &Stmt,
        seen: &Seen<'_>,
        rules: &RuleSet,
        set: &LinterSettings,
        out: &mut Reports,
    ) -> Result<(), NoMemory> {
        if self.has_enabled_rule(rules) {
            self.pass.step(state, p, i, s, seen, rules, set, out)
        } else {
            Ok(())
        }
    }

    fn finish(
        &self,
        alloc: Global,
        state: P::State,
        p: &Parse<'_>,
        rules: &RuleSet,
        set: &LinterSettings,
        out: &mut Reports,
    ) -> Result<(), NoMemory> {
        if !self.has_enabled_rule(rules) {
            return Ok(());
        }
        self.pass.finish(alloc, state, p, rules, set, out)
    }
}
