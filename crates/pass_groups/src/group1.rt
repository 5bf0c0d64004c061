//! The passes from the first to the eighth of the linter's order.

use pass_constraint::{
    AddingFieldWithDefault, AddingForeignKeyConstraint, AddingPrimaryKeyConstraint,
    AddingRequiredField,
};
use pass_data_type::{
    BanCharField, LinterSettings, NoMemory, Pair, Parse, Reports, RuleSet, Seen, StepPass, Stmt,
    WhereEnabled,
};
use pass_drop::BanDropDatabase;
use pass_history::AddingNotNullField;
use pass_session::BanConcurrentIndexCreationInTransaction;
use std::alloc::Global;

/// The members, in order. They are skipped unless one of their rules is enabled.
type Members = WhereEnabled<
    Pair<
        Pair<
            Pair<AddingFieldWithDefault, AddingForeignKeyConstraint>,
            Pair<AddingNotNullField, AddingPrimaryKeyConstraint>,
        >,
        Pair<
            Pair<AddingRequiredField, BanDropDatabase>,
            Pair<BanCharField, BanConcurrentIndexCreationInTransaction>,
        >,
    >,
>;

const MEMBERS: Members = WhereEnabled {
    pass: Pair {
        first: Pair {
            first: Pair {
                first: AddingFieldWithDefault,
                second: AddingForeignKeyConstraint,
            },
            second: Pair {
                first: AddingNotNullField,
                second: AddingPrimaryKeyConstraint,
            },
        },
        second: Pair {
            first: Pair {
                first: AddingRequiredField,
                second: BanDropDatabase,
            },
            second: Pair {
                first: BanCharField,
                second: BanConcurrentIndexCreationInTransaction,
            },
        },
    },
};

/// The passes from the first to the eighth of the linter's order: [`AddingFieldWithDefault`], [`AddingForeignKeyConstraint`],
/// [`AddingNotNullField`], [`AddingPrimaryKeyConstraint`], [`AddingRequiredField`], [`BanDropDatabase`], [`BanCharField`],
/// [`BanConcurrentIndexCreationInTransaction`].
#[derive(Drop)]
pub struct Group1;

/// What the members remember.
#[derive(Drop)]
pub struct Group1State {
    members: <Members as StepPass>::State,
}

impl StepPass for Group1 {
    ghost use Rattle.pass_groups.specs.declared.group1.TheConstants.{MEMBERS};

    type State = Group1State;

    ghost own = { λ _. ⟦<Members as StepPass>⟧.own MEMBERS };

    ghost at = { λ _ state tree r s i. ⟦<Members as StepPass>⟧.at MEMBERS state.members tree r s i };

    ghost wants = { λ _. ⟦<Members as StepPass>⟧.wants MEMBERS };

    ghost reports_at = { λ _. ⟦<Members as StepPass>⟧.reports_at MEMBERS };

    ghost tail = { λ _. ⟦<Members as StepPass>⟧.tail MEMBERS };

    ghost table = { λ _. ⟦<Members as StepPass>⟧.table MEMBERS };

    ghost whole = { λ _. ⟦<Members as StepPass>⟧.whole MEMBERS };

    ghost coded = { λ _. ⟦<Members as StepPass>⟧.coded MEMBERS };

    ghost placed = { λ _. ⟦<Members as StepPass>⟧.placed MEMBERS };

    ghost apart = { λ _. ⟦<Members as StepPass>⟧.apart MEMBERS };

    fn rules(&self) -> RuleSet {
        StepPass::rules(&MEMBERS)
    }

    fn wants_blocks(&self, rules: &RuleSet) -> bool {
        StepPass::wants_blocks(&MEMBERS, rules)
    }

    fn start(&self, alloc: Global, set: &LinterSettings) -> Result<Group1State, NoMemory> {
        Ok(Group1State {
            members: MEMBERS.start(alloc, set)?,
        })
    }

    fn step(
        &self,
        state: &mut Group1State,
        p: &Parse<'_>,
        i: u32,
        s: &Stmt,
        seen: &Seen<'_>,
        rules: &RuleSet,
        set: &LinterSettings,
        out: &mut Reports,
    ) -> Result<(), NoMemory> {
        MEMBERS.step(&mut state.members, p, i, s, seen, rules, set, out)
    }

    fn finish(
        &self,
        alloc: Global,
        state: Group1State,
        p: &Parse<'_>,
        rules: &RuleSet,
        set: &LinterSettings,
        out: &mut Reports,
    ) -> Result<(), NoMemory> {
        let Group1State { members } = state;
        MEMBERS.finish(alloc, members, p, rules, set, out)
    }
}
