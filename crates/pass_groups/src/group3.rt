//! The passes from the 17th to the 24th of the linter's order.

use pass_client::{RenamingColumn, RenamingTable};
use pass_concurrent::RequireConcurrentIndexCreation;
use pass_data_type::{
    LinterSettings, NoMemory, Pair, Parse, PreferIdentity, PreferTextField, PreferTimestamptz,
    Reports, RuleSet, Seen, StepPass, Stmt, WhereEnabled,
};
use pass_history::PreferRobustStmts;
use pass_session::PreferRepack;
use std::alloc::Global;

/// The passes of the group before the one on index builds.
pub type BeforeBuilds = Pair<
    Pair<Pair<PreferIdentity, PreferRepack>, Pair<PreferRobustStmts, PreferTextField>>,
    Pair<Pair<PreferTimestamptz, RenamingColumn>, RenamingTable>,
>;

/// The passes of the group before the one on index builds.
pub const BEFORE_BUILDS: BeforeBuilds = Pair {
    first: Pair {
        first: Pair {
            first: PreferIdentity,
            second: PreferRepack,
        },
        second: Pair {
            first: PreferRobustStmts,
            second: PreferTextField,
        },
    },
    second: Pair {
        first: Pair {
            first: PreferTimestamptz,
            second: RenamingColumn,
        },
        second: RenamingTable,
    },
};

/// The members, in order. They are skipped unless one of their rules is enabled.
type Members = WhereEnabled<Pair<BeforeBuilds, RequireConcurrentIndexCreation>>;

const MEMBERS: Members = WhereEnabled {
    pass: Pair {
        first: BEFORE_BUILDS,
        second: RequireConcurrentIndexCreation,
    },
};

/// The passes from the 17th to the 24th of the linter's order: [`PreferIdentity`], [`PreferRepack`], [`PreferRobustStmts`],
/// [`PreferTextField`], [`PreferTimestamptz`], [`RenamingColumn`], [`RenamingTable`], [`RequireConcurrentIndexCreation`].
#[derive(Drop)]
pub struct Group3;

/// What the members remember.
#[derive(Drop)]
pub struct Group3State {
    members: <Members as StepPass>::State,
}

impl StepPass for Group3 {
    ghost use Rattle.pass_groups.specs.declared.group3.TheConstants.{MEMBERS};

    type State = Group3State;

    ghost own = { λ _. ⟦<Members as StepPass>⟧.own MEMBERS };

    ghost at = { λ _ state tree r s i. ⟦<Members as StepPass>⟧.at MEMBERS state.members tree r s i };

    ghost wants = { λ _. ⟦<Members as StepPass>⟧.wants MEMBERS };

    ghost reports_at = { λ _. ⟦<Members as StepPass>⟧.reports_at MEMBERS };

    ghost tail = { λ _. ⟦<Members as StepPass>⟧.tail MEMBERS };

    ghost table = { λ _. ⟦<Members as StepPass>⟧.table MEMBERS };

    ghost whole = { λ _. ⟦<Members as StepPass>⟧.whole MEMBERS };

    ghost coded = { λ _. ⟦<Members as StepPass>⟧.coded MEMBERS };

    ghost placed = { λ _. ⟦<Members as StepPass>⟧.placed MEMBERS };

    ghost apart = { λ _. ⟦<Members as StepPass>⟧.apart MEMBERS };

    fn rules(&self) -> RuleSet {
        StepPass::rules(&MEMBERS)
    }

    fn wants_blocks(&self, rules: &RuleSet) -> bool {
        StepPass::wants_blocks(&MEMBERS, rules)
    }

    fn start(&self, alloc: Global, set: &LinterSettings) -> Result<Group3State, NoMemory> {
        Ok(Group3State {
            members: MEMBERS.start(alloc, set)?,
        })
    }

    fn step(
        &self,
        state: &mut Group3State,
        p: &Parse<'_>,
        i: u32,
        s: &Stmt,
        seen: &Seen<'_>,
        rules: &RuleSet,
        set: &LinterSettings,
        out: &mut Reports,
    ) -> Result<(), NoMemory> {
        MEMBERS.step(&mut state.members, p, i, s, seen, rules, set, out)
    }

    fn finish(
        &self,
        alloc: Global,
        state: Group3State,
        p: &Parse<'_>,
        rules: &RuleSet,
        set: &LinterSettings,
        out: &mut Reports,
    ) -> Result<(), NoMemory> {
        let Group3State { members } = state;
        MEMBERS.finish(alloc, members, p, rules, set, out)
    }
}
