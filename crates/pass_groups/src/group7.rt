//! The passes from the 49th to the 56th of the linter's order.

use pass_client::{
    BanAlterGeneratedExpression, BanAlterIdentity, BanDisableTrigger, BanReplicaIdentity,
    BanSetDefault, BanSetSchema,
};
use pass_data_type::{
    LinterSettings, NoMemory, Pair, Parse, Reports, RuleSet, Seen, StepPass, Stmt, WhereEnabled,
};
use pass_drop::{BanDropExtension, BanDropIndex};
use std::alloc::Global;

/// The members, in order. They are skipped unless one of their rules is enabled.
type Members = WhereEnabled<
    Pair<
        Pair<
            Pair<BanSetSchema, BanAlterIdentity>,
            Pair<BanDropExtension, BanAlterGeneratedExpression>,
        >,
        Pair<Pair<BanDropIndex, BanSetDefault>, Pair<BanDisableTrigger, BanReplicaIdentity>>,
    >,
>;

const MEMBERS: Members = WhereEnabled {
    pass: Pair {
        first: Pair {
            first: Pair {
                first: BanSetSchema,
                second: BanAlterIdentity,
            },
            second: Pair {
                first: BanDropExtension,
                second: BanAlterGeneratedExpression,
            },
        },
        second: Pair {
            first: Pair {
                first: BanDropIndex,
                second: BanSetDefault,
            },
            second: Pair {
                first: BanDisableTrigger,
                second: BanReplicaIdentity,
            },
        },
    },
};

/// The passes from the 49th to the 56th of the linter's order: [`BanSetSchema`], [`BanAlterIdentity`], [`BanDropExtension`],
/// [`BanAlterGeneratedExpression`], [`BanDropIndex`], [`BanSetDefault`], [`BanDisableTrigger`], [`BanReplicaIdentity`].
#[derive(Drop)]
pub struct Group7;

/// What the members remember.
#[derive(Drop)]
pub struct Group7State {
    members: <Members as StepPass>::State,
}

impl StepPass for Group7 {
    ghost use Rattle.pass_groups.specs.declared.group7.TheConstants.{MEMBERS};

    type State = Group7State;

    ghost own = { λ _. ⟦<Members as StepPass>⟧.own MEMBERS };

    ghost at = { λ _ state tree r s i. ⟦<Members as StepPass>⟧.at MEMBERS state.members tree r s i };

    ghost wants = { λ _. ⟦<Members as StepPass>⟧.wants MEMBERS };

    ghost reports_at = { λ _. ⟦<Members as StepPass>⟧.reports_at MEMBERS };

    ghost tail = { λ _. ⟦<Members as StepPass>⟧.tail MEMBERS };

    ghost table = { λ _. ⟦<Members as StepPass>⟧.table MEMBERS };

    ghost whole = { λ _. ⟦<Members as StepPass>⟧.whole MEMBERS };

    ghost coded = { λ _. ⟦<Members as StepPass>⟧.coded MEMBERS };

    ghost placed = { λ _. ⟦<Members as StepPass>⟧.placed MEMBERS };

    ghost apart = { λ _. ⟦<Members as StepPass>⟧.apart MEMBERS };

    fn rules(&self) -> RuleSet {
        StepPass::rules(&MEMBERS)
    }

    fn wants_blocks(&self, rules: &RuleSet) -> bool {
        StepPass::wants_blocks(&MEMBERS, rules)
    }

    fn start(&self, alloc: Global, set: &LinterSettings) -> Result<Group7State, NoMemory> {
        Ok(Group7State {
            members: MEMBERS.start(alloc, set)?,
        })
    }

    fn step(
        &self,
        state: &mut Group7State,
        p: &Parse<'_>,
        i: u32,
        s: &Stmt,
        seen: &Seen<'_>,
        rules: &RuleSet,
        set: &LinterSettings,
        out: &mut Reports,
    ) -> Result<(), NoMemory> {
        MEMBERS.step(&mut state.members, p, i, s, seen, rules, set, out)
    }

    fn finish(
        &self,
        alloc: Global,
        state: Group7State,
        p: &Parse<'_>,
        rules: &RuleSet,
        set: &LinterSettings,
        out: &mut Reports,
    ) -> Result<(), NoMemory> {
        let Group7State { members } = state;
        MEMBERS.finish(alloc, members, p, rules, set, out)
    }
}
