//! Two passes as one.

ghost use Rattle.std.specs.Prelude.{◌≡◌, ◌+◌, ◌<◌, ◌++◌, length, OnOk, OnErr, IfOk};
ghost use Rattle.lint_base.specs.Grown.{GrownBy};
ghost use Rattle.lint_transaction.specs.Earlier.{concat_below};

use crate::seen::Seen;
use crate::step::StepPass;
use lint_base::{LinterSettings, NoMemory, Reports, RuleSet};
use lint_ignore::{Parse, Stmt};
use std::alloc::Global;

/// Two passes, the first's reports before the second's. Its rules are those of both.
#[derive(Drop)]
pub struct Pair<A, B> {
    pub first: A,
    pub second: B,
}

/// The states of two passes, and the second's reports so far.
#[derive(Drop)]
pub struct PairState<S, T> {
    first: S,
    second: T,
    later: Reports,
}

impl<A: StepPass, B: StepPass> StepPass for Pair<A, B> {
    ghost use Rattle.std.specs.Prelude.{◌||◌};
    ghost use Rattle.std.proofs.lemmas.List.Elements.{All-append};
    ghost use Rattle.lint_base.specs.RuleSets.{both_rules};
    ghost use Rattle.lint_pass.specs.Laws.{IsPlacedIn};
    ghost use Rattle.lint_pass.specs.PairLaws.{pair_whole, pair_coded, pair_apart};

    type State = PairState<A::State, B::State>;

    ghost own = { λ x. both_rules (A.own x.first) (B.own x.second) };

    ghost at = { λ x state tree r s i. A.at x.first state.first tree r s i × B.at x.second state.second tree r s i × (state.later ≡ concat_below (B.reports_at x.second tree r s) i) };

    ghost wants = { λ x r. A.wants x.first r || B.wants x.second r };

    ghost reports_at = { λ x tree r s i. A.reports_at x.first tree r s i };

    ghost tail = { λ x tree r s. A.tail x.first tree r s ++ B.table x.second tree r s };

    ghost table = { λ x tree r s. A.table x.first tree r s ++ B.table x.second tree r s };

    ghost whole = { λ x tree r s. pair_whole _ _ _ _ (A.whole x.first tree r s) };

    ghost coded = { λ x tree r s. pair_coded _ _ _ _ _ (A.coded x.first tree r s) (B.coded x.second tree r s) };

    ghost placed = { λ x tree r s h. All-append (IsPlacedIn tree) _ _ (A.placed x.first tree r s h) (B.placed x.second tree r s h) };

    ghost apart = { λ x tree s q some others h. pair_apart q _ _ _ _ (A.apart x.first tree s q some others h) (B.apart x.second tree s q some others h) };

    fn rules(&self) -> RuleSet {
        self.first.rules().union(self.second.rules())
    }

    fn wants_blocks(&self, rules: &RuleSet) -> bool {
        self.first.wants_blocks(rules) || self.second.wants_blocks(rules)
    }

    fn start(
        &self,
        alloc: Global,
        set: &LinterSettings,
    ) -> Result<PairState<A::State, B::State>, NoMemory> {
        let first = self.first.start(alloc, set)?;
        let second = self.second.start(alloc, set)?;
        Ok(PairState {
            first,
            second,
            later: Reports::new(alloc),
        })
    }

    #[tactic(auto, using(crate::specs::PairLaws::or_first, crate::specs::PairLaws::or_second))]
    fn step(
        &self,
        state: &mut PairState<A::State, B::State>,
        p: &Parse<'_>,
        i: u32,
        s: &Stmt,
        seen: &Seen<'_>,
        rules: &RuleSet,
        set: &LinterSettings,
        out: &mut Reports,
    ) -> Result<(), NoMemory> {
        self.first
            .step(&mut state.first, p, i, s, seen, rules, set, out)?;
        self.second.step(
            &mut state.second,
            p,
            i,
            s,
            seen,
            rules,
            set,
            &mut state.later,
        )?;
        Ok(())
    }

    fn finish(
        &self,
        alloc: Global,
        state: PairState<A::State, B::State>,
        p: &Parse<'_>,
        rules: &RuleSet,
        set: &LinterSettings,
        out: &mut Reports,
    ) -> Result<(), NoMemory> {
        let PairState {
            first,
            second,
            later,
        } = state;
        self.first.finish(alloc, first, p, rules, set, out)?;
        out.append(later)?;
        self.second.finish(alloc, second, p, rules, set, out)?;
        Ok(())
    }
}
