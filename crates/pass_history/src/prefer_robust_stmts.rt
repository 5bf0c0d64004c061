//! Statements that can't be run again where a migration fails part way through.

ghost use Rattle.std.specs.Prelude.{◌≡◌, ◌++◌, ◌&&◌, ◌||◌, not, List, length, OnOk, OnErr, ◌<◌, ◌+◌};
ghost use Rattle.lint_pass.specs.lint_base.Grown.{GrownBy};
ghost use Rattle.lint_pass.specs.lint_node.Altered.{Altered, altered_by};
ghost use Rattle.lint_pass.specs.BlockPlace.{ended_before};
ghost use Rattle.lint_pass.specs.Blocks.{blocks_of};
ghost use Rattle.lint_pass.specs.lint_transaction.Events.{each_event};
ghost use Rattle.lint_pass.specs.lint_transaction.Transaction as track;
ghost use Rattle.pass_history.specs.Dropped.{IsDropping};
ghost use Rattle.pass_history.specs.PreferRobustStmts.{is_robust};
ghost use Rattle.pass_history.specs.RobustActions.{report_on};
ghost use Rattle.pass_history.specs.RobustStatements.{statement_reports};
ghost use Rattle.pass_history.specs.PreferRobustStmtsWalk.{IsRobustAt};

use crate::dropped_constraints::DroppedConstraints;
use crate::robust_actions::watch_alterations;
use crate::robust_statements::report_statement;
use lint_pass::{
    Block, LinterSettings, NoMemory, OpenTransaction, Reports, Rule, RulePass, Seen,
    blocks_ended_before, is_in_block,
};
use sql_tree::{Parse, Stmt};
use std::alloc::Global;

/// Reports, outside of a transaction: each action of an ALTER TABLE, CREATE INDEX with a name, CREATE TABLE, DROP INDEX, DROP TABLE and
/// DROP TYPE that a second run would stop at; inside of one, CREATE INDEX with CONCURRENTLY. In a text with blocks that Alembic writes,
/// only these blocks count as transactions.
///
/// IF EXISTS or IF NOT EXISTS excuses what can have it. A VALIDATE CONSTRAINT is excused by an earlier DROP CONSTRAINT of its name, and
/// an ADD CONSTRAINT by one that no other ADD CONSTRAINT of the name came after: the second run drops the constraint first.
///
/// Outside of a transaction each statement takes effect by itself. Where one fails, as at a lock timeout, those before it stay done,
/// and when the migration is run again it stops at the first of them, which is there already: somebody has to mend the database by hand,
/// in the middle of a deployment.
///
/// PostgreSQL manual, section 3.4; ALTER TABLE, CREATE INDEX, CREATE TABLE, DROP INDEX, DROP TABLE and DROP TYPE, "IF EXISTS" and
/// "IF NOT EXISTS".
#[derive(Drop)]
pub struct PreferRobustStmts;

/// Whether a transaction is open, the constraints that were dropped, and how many blocks of Alembic have ended.
#[derive(Drop)]
pub struct PreferRobustStmtsMemory {
    alloc: Global,
    open: OpenTransaction,
    dropped: DroppedConstraints,
    next: usize,
}

impl PreferRobustStmtsMemory {
    /// Whether statement `i` is robust.
    fn is_robust(&self, p: &Parse<'_>, blocks: &[Block], i: u32, set: &LinterSettings) -> bool
        requires at { IsRobustAt p.now set.now i self.now }
        requires within { i < length p.now.stmts }
        requires blocks { blocks.now ≡ blocks_of p.now }
        ensures { result ≡ is_robust set.now p.now i }
    {
        if blocks.is_empty() {
            self.open.inside()
        } else {
            set.assume_in_transaction || is_in_block(p, blocks, self.next, i)
        }
    }

    /// Reports on a statement, and remembers what it drops.
    fn report(
        &mut self,
        p: &Parse<'_>,
        robust: bool,
        s: &Stmt,
        out: &mut Reports,
    ) -> Result<(), NoMemory>
        ensures open { self.new.open ≡ self.old.open }
        ensures next { self.new.next ≡ self.old.next }
        ensures knows { OnOk result ((es : List Altered) → IsDropping p.now es self.old.dropped → IsDropping p.now (es ++ altered_by s.now) self.new.dropped) }
        ensures ok { OnOk result ((es : List Altered) → IsDropping p.now es self.old.dropped → out.new ≡ out.old ++ (each_event (report_on robust p.now) es (altered_by s.now) ++ statement_reports p.now robust s.now)) }
        ensures err { OnErr result ((es : List Altered) → IsDropping p.now es self.old.dropped → GrownBy out.old out.new (each_event (report_on robust p.now) es (altered_by s.now) ++ statement_reports p.now robust s.now)) }
    {
        watch_alterations(&mut self.dropped, self.alloc, p, robust, s, out)?;
        report_statement(self.alloc, p, robust, s, out)
    }

    /// Goes after statement `i`, which was reported on.
    fn go_after(&mut self, p: &Parse<'_>, blocks: &[Block], i: u32, s: &Stmt)
        requires next { self.old.next ≡ length (ended_before p.now i) }
        requires within { i < length p.now.stmts }
        requires blocks { blocks.now ≡ blocks_of p.now }
        ensures dropped { self.new.dropped ≡ self.old.dropped }
        ensures next { self.new.next ≡ length (ended_before p.now (i + 1)) }
        ensures open { self.new.open ≡ (track.begins s.now || track.chains s.now || (self.old.open && not (track.ends s.now))) }
    {
        self.open.update(s);
        self.next = blocks_ended_before(p, blocks, self.next, i);
    }
}

impl RulePass for PreferRobustStmts {
    ghost use Rattle.std.specs.Prelude.{true};
    ghost use Rattle.lint_pass.specs.lint_base.declared.rule.Rule.TheVariants as rule;
    ghost use Rattle.pass_history.specs.RobustStatementsLaws.{robust_coded, robust_placed};
    ghost use Rattle.pass_history.specs.RobustStatements.{robust_of};
    ghost use Rattle.pass_history.specs.PreferRobustStmtsWalk.{IsRobustAt};

    type Memory = PreferRobustStmtsMemory;

    ghost code = { λ _. rule.PreferRobustStmts };

    ghost knows = { λ _ memory tree set i. IsRobustAt tree set i memory };

    ghost wants = { λ _. true };

    ghost reports = { λ _. robust_of };

    ghost coded = { λ _. robust_coded };

    ghost placed = { λ _. robust_placed };

    fn code(&self) -> Rule {
        Rule::PreferRobustStmts
    }

    fn wants_blocks(&self) -> bool {
        true
    }

    fn begin(
        &self,
        alloc: Global,
        set: &LinterSettings,
    ) -> Result<PreferRobustStmtsMemory, NoMemory> {
        Ok(PreferRobustStmtsMemory {
            alloc,
            open: OpenTransaction::new(set.assume_in_transaction),
            dropped: DroppedConstraints::new(alloc),
            next: 0,
        })
    }

    fn visit(
        &self,
        memory: &mut PreferRobustStmtsMemory,
        p: &Parse<'_>,
        i: u32,
        s: &Stmt,
        seen: &Seen<'_>,
        set: &LinterSettings,
        out: &mut Reports,
    ) -> Result<(), NoMemory> {
        let blocks = seen.blocks.as_slice();
        let robust = memory.is_robust(p, blocks, i, set);
        memory.report(p, robust, s, out)?;
        memory.go_after(p, blocks, i, s);
        Ok(())
    }
}
