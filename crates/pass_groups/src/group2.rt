//! The passes from the ninth to the 16th of the linter's order.

use pass_constraint::{ConstraintMissingNotValid, DisallowUniqueConstraint};
use pass_data_type::{
    ChangingColumnType, LinterSettings, NoMemory, Pair, Parse, PreferBigintOverInt,
    PreferBigintOverSmallint, Reports, RuleSet, Seen, StepPass, Stmt, WhereEnabled,
};
use pass_drop::{BanDropColumn, BanDropNotNull, BanDropTable};
use std::alloc::Global;

/// The passes of the group before the one on added constraints.
pub type BeforeConstraints = Pair<
    Pair<BanDropColumn, BanDropNotNull>,
    Pair<BanDropTable, ChangingColumnType>,
>;

/// The passes of the group before the one on added constraints.
pub const BEFORE_CONSTRAINTS: BeforeConstraints = Pair {
    first: Pair {
        first: BanDropColumn,
        second: BanDropNotNull,
    },
    second: Pair {
        first: BanDropTable,
        second: ChangingColumnType,
    },
};

/// The passes of the group after the one on added constraints.
pub type AfterConstraints = Pair<
    Pair<DisallowUniqueConstraint, PreferBigintOverInt>,
    PreferBigintOverSmallint,
>;

/// The passes of the group after the one on added constraints.
pub const AFTER_CONSTRAINTS: AfterConstraints = Pair {
    first: Pair {
        first: DisallowUniqueConstraint,
        second: PreferBigintOverInt,
    },
    second: PreferBigintOverSmallint,
};

/// The members, in order. They are skipped unless one of their rules is enabled.
type Members = WhereEnabled<
    Pair<BeforeConstraints, Pair<ConstraintMissingNotValid, AfterConstraints>>,
>;

const MEMBERS: Members = WhereEnabled {
    pass: Pair {
        first: BEFORE_CONSTRAINTS,
        second: Pair {
            first: ConstraintMissingNotValid,
            second: AFTER_CONSTRAINTS,
        },
    },
};

/// The passes from the ninth to the 16th of the linter's order: [`BanDropColumn`], [`BanDropNotNull`], [`BanDropTable`],
/// [`ChangingColumnType`], [`ConstraintMissingNotValid`], [`DisallowUniqueConstraint`], [`PreferBigintOverInt`],
/// [`PreferBigintOverSmallint`].
#[derive(Drop)]
pub struct Group2;

/// What the members remember.
#[derive(Drop)]
pub struct Group2State {
    members: <Members as StepPass>::State,
}

impl StepPass for Group2 {
    ghost use Rattle.pass_groups.specs.declared.group2.TheConstants.{MEMBERS};

    type State = Group2State;

    ghost own = { λ _. ⟦<Members as StepPass>⟧.own MEMBERS };

    ghost at = { λ _ state tree r s i. ⟦<Members as StepPass>⟧.at MEMBERS state.members tree r s i };

    ghost wants = { λ _. ⟦<Members as StepPass>⟧.wants MEMBERS };

    ghost reports_at = { λ _. ⟦<Members as StepPass>⟧.reports_at MEMBERS };

    ghost tail = { λ _. ⟦<Members as StepPass>⟧.tail MEMBERS };

    ghost table = { λ _. ⟦<Members as StepPass>⟧.table MEMBERS };

    ghost whole = { λ _. ⟦<Members as StepPass>⟧.whole MEMBERS };

    ghost coded = { λ _. ⟦<Members as StepPass>⟧.coded MEMBERS };

    ghost placed = { λ _. ⟦<Members as StepPass>⟧.placed MEMBERS };

    ghost apart = { λ _. ⟦<Members as StepPass>⟧.apart MEMBERS };

    fn rules(&self) -> RuleSet {
        StepPass::rules(&MEMBERS)
    }

    fn wants_blocks(&self, rules: &RuleSet) -> bool {
        StepPass::wants_blocks(&MEMBERS, rules)
    }

    fn start(&self, alloc: Global, set: &LinterSettings) -> Result<Group2State, NoMemory> {
        Ok(Group2State {
            members: MEMBERS.start(alloc, set)?,
        })
    }

    fn step(
        &self,
        state: &mut Group2State,
        p: &Parse<'_>,
        i: u32,
        s: &Stmt,
        seen: &Seen<'_>,
        rules: &RuleSet,
        set: &LinterSettings,
        out: &mut Reports,
    ) -> Result<(), NoMemory> {
        MEMBERS.step(&mut state.members, p, i, s, seen, rules, set, out)
    }

    fn finish(
        &self,
        alloc: Global,
        state: Group2State,
        p: &Parse<'_>,
        rules: &RuleSet,
        set: &LinterSettings,
        out: &mut Reports,
    ) -> Result<(), NoMemory> {
        let Group2State { members } = state;
        MEMBERS.finish(alloc, members, p, rules, set, out)
    }
}
