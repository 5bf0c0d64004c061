//! The passes from the 33rd to the 40th of the linter's order.

use pass_client::RequireTableSchema;
use pass_concurrent::{RequireConcurrentPartitionDetach, RequireConcurrentReindex};
use pass_data_type::{
    LinterSettings, NoMemory, Pair, Parse, Reports, RuleSet, Seen, StepPass, Stmt, WhereEnabled,
};
use pass_drop::{BanDropFunction, BanDropType, BanDropView};
use pass_name::{BanDuplicateColumnAssignments, IdentifierTooLong};
use std::alloc::Global;

/// The members, in order. They are skipped unless one of their rules is enabled.
type Members = WhereEnabled<
    Pair<
        Pair<
            Pair<RequireTableSchema, IdentifierTooLong>,
            Pair<RequireConcurrentPartitionDetach, RequireConcurrentReindex>,
        >,
        Pair<Pair<BanDuplicateColumnAssignments, BanDropView>, Pair<BanDropFunction, BanDropType>>,
    >,
>;

const MEMBERS: Members = WhereEnabled {
    pass: Pair {
        first: Pair {
            first: Pair {
                first: RequireTableSchema,
                second: IdentifierTooLong,
            },
            second: Pair {
                first: RequireConcurrentPartitionDetach,
                second: RequireConcurrentReindex,
            },
        },
        second: Pair {
            first: Pair {
                first: BanDuplicateColumnAssignments,
                second: BanDropView,
            },
            second: Pair {
                first: BanDropFunction,
                second: BanDropType,
            },
        },
    },
};

/// The passes from the 33rd to the 40th of the linter's order: [`RequireTableSchema`], [`IdentifierTooLong`],
/// [`RequireConcurrentPartitionDetach`], [`RequireConcurrentReindex`], [`BanDuplicateColumnAssignments`], [`BanDropView`],
/// [`BanDropFunction`], [`BanDropType`].
#[derive(Drop)]
pub struct Group5;

/// What the members remember.
#[derive(Drop)]
pub struct Group5State {
    members: <Members as StepPass>::State,
}

impl StepPass for Group5 {
    ghost use Rattle.pass_groups.specs.declared.group5.TheConstants.{MEMBERS};

    type State = Group5State;

    ghost own = { λ _. ⟦<Members as StepPass>⟧.own MEMBERS };

    ghost at = { λ _ state tree r s i. ⟦<Members as StepPass>⟧.at MEMBERS state.members tree r s i };

    ghost wants = { λ _. ⟦<Members as StepPass>⟧.wants MEMBERS };

    ghost reports_at = { λ _. ⟦<Members as StepPass>⟧.reports_at MEMBERS };

    ghost tail = { λ _. ⟦<Members as StepPass>⟧.tail MEMBERS };

    ghost table = { λ _. ⟦<Members as StepPass>⟧.table MEMBERS };

    ghost whole = { λ _. ⟦<Members as StepPass>⟧.whole MEMBERS };

    ghost coded = { λ _. ⟦<Members as StepPass>⟧.coded MEMBERS };

    ghost placed = { λ _. ⟦<Members as StepPass>⟧.placed MEMBERS };

    ghost apart = { λ _. ⟦<Members as StepPass>⟧.apart MEMBERS };

    fn rules(&self) -> RuleSet {
        StepPass::rules(&MEMBERS)
    }

    fn wants_blocks(&self, rules: &RuleSet) -> bool {
        StepPass::wants_blocks(&MEMBERS, rules)
    }

    fn start(&self, alloc: Global, set: &LinterSettings) -> Result<Group5State, NoMemory> {
        Ok(Group5State {
            members: MEMBERS.start(alloc, set)?,
        })
    }

    fn step(
        &self,
        state: &mut Group5State,
        p: &Parse<'_>,
        i: u32,
        s: &Stmt,
        seen: &Seen<'_>,
        rules: &RuleSet,
        set: &LinterSettings,
        out: &mut Reports,
    ) -> Result<(), NoMemory> {
        MEMBERS.step(&mut state.members, p, i, s, seen, rules, set, out)
    }

    fn finish(
        &self,
        alloc: Global,
        state: Group5State,
        p: &Parse<'_>,
        rules: &RuleSet,
        set: &LinterSettings,
        out: &mut Reports,
    ) -> Result<(), NoMemory> {
        let Group5State { members } = state;
        MEMBERS.finish(alloc, members, p, rules, set, out)
    }
}
