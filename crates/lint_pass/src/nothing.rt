//! The pass that reports nothing.

use crate::seen::Seen;
use crate::step::StepPass;
use lint_base::{LinterSettings, NoMemory, Reports, RuleSet};
use lint_ignore::{Parse, Stmt};
use std::alloc::Global;

/// The pass that reports nothing: a group without members.
#[derive(Drop)]
pub struct NoPass;

impl StepPass for NoPass {
    ghost use Rattle.std.specs.Prelude.{[], false, length, refl};
    ghost use Rattle.std.proofs.lemmas.List.Elements.{All-nil};
    ghost use Rattle.lint_base.specs.RuleSets.{no_rules};
    ghost use Rattle.lint_pass.specs.Laws.{IsOf, IsPlacedIn};
    ghost use Rattle.lint_pass.specs.Pieces.{no_pieces};

    type State = ();

    ghost own = { λ _. no_rules };

    ghost at = { λ _ _ _ _ _ _. Unit {0} };

    ghost wants = { λ _ _. false };

    ghost reports_at = { λ _ _ _ _ _. [] };

    ghost tail = { λ _ _ _ _. [] };

    ghost table = { λ _ _ _ _. [] };

    ghost whole = { λ _ tree _ _. no_pieces [] (length tree.stmts) };

    ghost coded = { λ _ _ r _. All-nil (IsOf no_rules r) };

    ghost placed = { λ _ tree _ _ _. All-nil (IsPlacedIn tree) };

    ghost apart = { λ _ _ _ _ _ _ _. refl };

    fn rules(&self) -> RuleSet {
        RuleSet::empty()
    }

    fn wants_blocks(&self, _rules: &RuleSet) -> bool {
        false
    }

    fn start(&self, _alloc: Global, _set: &LinterSettings) -> Result<(), NoMemory> {
        Ok(())
    }

    fn step(
        &self,
        _state: &mut (),
        _p: &Parse<'_>,
        _i: u32,
        _s: &Stmt,
        _seen: &Seen<'_>,
        _rules: &RuleSet,
        _set: &LinterSettings,
        _out: &mut Reports,
    ) -> Result<(), NoMemory> {
        Ok(())
    }

    fn finish(
        &self,
        _alloc: Global,
        _state: (),
        _p: &Parse<'_>,
        _rules: &RuleSet,
        _set: &LinterSettings,
        _out: &mut Reports,
    ) -> Result<(), NoMemory> {
        Ok(())
    }
}
