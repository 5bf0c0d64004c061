//! All passes of the linter.

use crate::group1::Group1;
use crate::group2::Group2;
use crate::group3::Group3;
use crate::group4::Group4;
use crate::group5::Group5;
use crate::group6::Group6;
use crate::group7::Group7;
use crate::group8::Group8;
use pass_data_type::{
    LinterSettings, NoMemory, Pair, Parse, Reports, RuleSet, Seen, StepPass, Stmt, WhereEnabled,
};
use std::alloc::Global;

/// Two groups, which are skipped unless one of their rules is enabled.
type Two<First, Second> = WhereEnabled<Pair<First, Second>>;

/// The groups, in order.
type Groups = Pair<
    Pair<Two<Group1, Group2>, Two<Group3, Group4>>,
    Pair<Two<Group5, Group6>, Two<Group7, Group8>>,
>;

const GROUPS: Groups = Pair {
    first: Pair {
        first: WhereEnabled {
            pass: Pair {
                first: Group1,
                second: Group2,
            },
        },
        second: WhereEnabled {
            pass: Pair {
                first: Group3,
                second: Group4,
            },
        },
    },
    second: Pair {
        first: WhereEnabled {
            pass: Pair {
                first: Group5,
                second: Group6,
            },
        },
        second: WhereEnabled {
            pass: Pair {
                first: Group7,
                second: Group8,
            },
        },
    },
};

/// All passes of the linter, one group after the other.
#[derive(Drop)]
pub struct OwnPasses;

/// What the groups remember.
#[derive(Drop)]
pub struct OwnPassesState {
    groups: <Groups as StepPass>::State,
}

impl StepPass for OwnPasses {
    ghost use Rattle.pass_groups.specs.declared.own.TheConstants.{GROUPS};
    ghost use Rattle.pass_groups.specs.OwnTable.{own_table};

    type State = OwnPassesState;

    ghost own = { λ _. ⟦<Groups as StepPass>⟧.own GROUPS };

    ghost at = { λ _ state tree r s i. ⟦<Groups as StepPass>⟧.at GROUPS state.groups tree r s i };

    ghost wants = { λ _. ⟦<Groups as StepPass>⟧.wants GROUPS };

    ghost reports_at = { λ _. ⟦<Groups as StepPass>⟧.reports_at GROUPS };

    ghost tail = { λ _. ⟦<Groups as StepPass>⟧.tail GROUPS };

    ghost table = { λ _. own_table };

    ghost whole = { λ _. ⟦<Groups as StepPass>⟧.whole GROUPS };

    ghost coded = { λ _. ⟦<Groups as StepPass>⟧.coded GROUPS };

    ghost placed = { λ _. ⟦<Groups as StepPass>⟧.placed GROUPS };

    ghost apart = { λ _. ⟦<Groups as StepPass>⟧.apart GROUPS };

    fn rules(&self) -> RuleSet {
        StepPass::rules(&GROUPS)
    }

    fn wants_blocks(&self, rules: &RuleSet) -> bool {
        StepPass::wants_blocks(&GROUPS, rules)
    }

    fn start(&self, alloc: Global, set: &LinterSettings) -> Result<OwnPassesState, NoMemory> {
        Ok(OwnPassesState {
            groups: GROUPS.start(alloc, set)?,
        })
    }

    fn step(
        &self,
        state: &mut OwnPassesState,
        p: &Parse<'_>,
        i: u32,
        s: &Stmt,
        seen: &Seen<'_>,
        rules: &RuleSet,
        set: &LinterSettings,
        out: &mut Reports,
    ) -> Result<(), NoMemory> {
        GROUPS.step(&mut state.groups, p, i, s, seen, rules, set, out)
    }

    fn finish(
        &self,
        alloc: Global,
        state: OwnPassesState,
        p: &Parse<'_>,
        rules: &RuleSet,
        set: &LinterSettings,
        out: &mut Reports,
    ) -> Result<(), NoMemory> {
        let OwnPassesState { groups } = state;
        GROUPS.finish(alloc, groups, p, rules, set, out)
    }
}
