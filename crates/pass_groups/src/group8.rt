//! The passes from the 57th to the 61st of the linter's order.

use pass_client::{BanReplaceViewFunction, BanRevoke, SecurityCompatibility};
use pass_data_type::{
    LinterSettings, NoMemory, Pair, Parse, Reports, RuleSet, Seen, StepPass, Stmt, WhereEnabled,
};
use pass_drop::BanDropPolicy;
use pass_object::ExistingObjectCompatibility;
use std::alloc::Global;

/// The members, in order. They are skipped unless one of their rules is enabled.
type Members = WhereEnabled<
    Pair<
        Pair<Pair<BanDropPolicy, BanRevoke>, Pair<BanReplaceViewFunction, SecurityCompatibility>>,
        ExistingObjectCompatibility,
    >,
>;

const MEMBERS: Members = WhereEnabled {
    pass: Pair {
        first: Pair {
            first: Pair {
                first: BanDropPolicy,
                second: BanRevoke,
            },
            second: Pair {
                first: BanReplaceViewFunction,
                second: SecurityCompatibility,
            },
        },
        second: ExistingObjectCompatibility,
    },
};

/// The passes from the 57th to the 61st of the linter's order: [`BanDropPolicy`], [`BanRevoke`], [`BanReplaceViewFunction`],
/// [`SecurityCompatibility`], [`ExistingObjectCompatibility`].
#[derive(Drop)]
pub struct Group8;

/// What the members remember.
#[derive(Drop)]
pub struct Group8State {
    members: <Members as StepPass>::State,
}

impl StepPass for Group8 {
    ghost use Rattle.pass_groups.specs.declared.group8.TheConstants.{MEMBERS};

    type State = Group8State;

    ghost own = { λ _. ⟦<Members as StepPass>⟧.own MEMBERS };

    ghost at = { λ _ state tree r s i. ⟦<Members as StepPass>⟧.at MEMBERS state.members tree r s i };

    ghost wants = { λ _. ⟦<Members as StepPass>⟧.wants MEMBERS };

    ghost reports_at = { λ _. ⟦<Members as StepPass>⟧.reports_at MEMBERS };

    ghost tail = { λ _. ⟦<Members as StepPass>⟧.tail MEMBERS };

    ghost table = { λ _. ⟦<Members as StepPass>⟧.table MEMBERS };

    ghost whole = { λ _. ⟦<Members as StepPass>⟧.whole MEMBERS };

    ghost coded = { λ _. ⟦<Members as StepPass>⟧.coded MEMBERS };

    ghost placed = { λ _. ⟦<Members as StepPass>⟧.placed MEMBERS };

    ghost apart = { λ _. ⟦<Members as StepPass>⟧.apart MEMBERS };

    fn rules(&self) -> RuleSet {
        StepPass::rules(&MEMBERS)
    }

    fn wants_blocks(&self, rules: &RuleSet) -> bool {
        StepPass::wants_blocks(&MEMBERS, rules)
    }

    fn start(&self, alloc: Global, set: &LinterSettings) -> Result<Group8State, NoMemory> {
        Ok(Group8State {
            members: MEMBERS.start(alloc, set)?,
        })
    }

    fn step(
        &self,
        state: &mut Group8State,
        p: &Parse<'_>,
        i: u32,
        s: &Stmt,
        seen: &Seen<'_>,
        rules: &RuleSet,
        set: &LinterSettings,
        out: &mut Reports,
    ) -> Result<(), NoMemory> {
        MEMBERS.step(&mut state.members, p, i, s, seen, rules, set, out)
    }

    fn finish(
        &self,
        alloc: Global,
        state: Group8State,
        p: &Parse<'_>,
        rules: &RuleSet,
        set: &LinterSettings,
        out: &mut Reports,
    ) -> Result<(), NoMemory> {
        let Group8State { members } = state;
        MEMBERS.finish(alloc, members, p, rules, set, out)
    }
}
