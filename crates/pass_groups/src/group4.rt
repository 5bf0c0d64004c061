//! The passes from the 25th to the 32nd of the linter's order.

use pass_client::{BanAlterDomainWithAddConstraint, BanCreateDomainWithConstraint};
use pass_concurrent::RequireConcurrentIndexDeletion;
use pass_data_type::{
    LinterSettings, NoMemory, Pair, Parse, Reports, RequireEnumValueOrdering, RuleSet, Seen,
    StepPass, Stmt, WhereEnabled,
};
use pass_drop::BanTruncateCascade;
use pass_session::{BanUncommittedTransaction, RequireTimeoutSettings, TransactionNesting};
use std::alloc::Global;

/// The members, in order. They are skipped unless one of their rules is enabled.
type Members = WhereEnabled<
    Pair<
        Pair<
            Pair<RequireConcurrentIndexDeletion, BanCreateDomainWithConstraint>,
            Pair<BanAlterDomainWithAddConstraint, TransactionNesting>,
        >,
        Pair<
            Pair<BanTruncateCascade, RequireTimeoutSettings>,
            Pair<BanUncommittedTransaction, RequireEnumValueOrdering>,
        >,
    >,
>;

const MEMBERS: Members = WhereEnabled {
    pass: Pair {
        first: Pair {
            first: Pair {
                first: RequireConcurrentIndexDeletion,
                second: BanCreateDomainWithConstraint,
            },
            second: Pair {
                first: BanAlterDomainWithAddConstraint,
                second: TransactionNesting,
            },
        },
        second: Pair {
            first: Pair {
                first: BanTruncateCascade,
                second: RequireTimeoutSettings,
            },
            second: Pair {
                first: BanUncommittedTransaction,
                second: RequireEnumValueOrdering,
            },
        },
    },
};

/// The passes from the 25th to the 32nd of the linter's order: [`RequireConcurrentIndexDeletion`],
/// [`BanCreateDomainWithConstraint`], [`BanAlterDomainWithAddConstraint`], [`TransactionNesting`], [`BanTruncateCascade`],
/// [`RequireTimeoutSettings`], [`BanUncommittedTransaction`], [`RequireEnumValueOrdering`].
#[derive(Drop)]
pub struct Group4;

/// What the members remember.
#[derive(Drop)]
pub struct Group4State {
    members: <Members as StepPass>::State,
}

impl StepPass for Group4 {
    ghost use Rattle.pass_groups.specs.declared.group4.TheConstants.{MEMBERS};

    type State = Group4State;

    ghost own = { λ _. ⟦<Members as StepPass>⟧.own MEMBERS };

    ghost at = { λ _ state tree r s i. ⟦<Members as StepPass>⟧.at MEMBERS state.members tree r s i };

    ghost wants = { λ _. ⟦<Members as StepPass>⟧.wants MEMBERS };

    ghost reports_at = { λ _. ⟦<Members as StepPass>⟧.reports_at MEMBERS };

    ghost tail = { λ _. ⟦<Members as StepPass>⟧.tail MEMBERS };

    ghost table = { λ _. ⟦<Members as StepPass>⟧.table MEMBERS };

    ghost whole = { λ _. ⟦<Members as StepPass>⟧.whole MEMBERS };

    ghost coded = { λ _. ⟦<Members as StepPass>⟧.coded MEMBERS };

    ghost placed = { λ _. ⟦<Members as StepPass>⟧.placed MEMBERS };

    ghost apart = { λ _. ⟦<Members as StepPass>⟧.apart MEMBERS };

    fn rules(&self) -> RuleSet {
        StepPass::rules(&MEMBERS)
    }

    fn wants_blocks(&self, rules: &RuleSet) -> bool {
        StepPass::wants_blocks(&MEMBERS, rules)
    }

    fn start(&self, alloc: Global, set: &LinterSettings) -> Result<Group4State, NoMemory> {
        Ok(Group4State {
            members: MEMBERS.start(alloc, set)?,
        })
    }

    fn step(
        &self,
        state: &mut Group4State,
        p: &Parse<'_>,
        i: u32,
        s: &Stmt,
        seen: &Seen<'_>,
        rules: &RuleSet,
        set: &LinterSettings,
        out: &mut Reports,
    ) -> Result<(), NoMemory> {
        MEMBERS.step(&mut state.members, p, i, s, seen, rules, set, out)
    }

    fn finish(
        &self,
        alloc: Global,
        state: Group4State,
        p: &Parse<'_>,
        rules: &RuleSet,
        set: &LinterSettings,
        out: &mut Reports,
    ) -> Result<(), NoMemory> {
        let Group4State { members } = state;
        MEMBERS.finish(alloc, members, p, rules, set, out)
    }
}
