//! Index builds that block writes.

ghost use Rattle.std.specs.Prelude.{◌≡◌, ◌++◌, ◌∷◌, [], ℕ, Bool, OnOk, OnErr, IfOk};
ghost use Rattle.lint_pass.specs.lint_base.declared.settings.LinterSettings.{LinterSettings};
ghost use Rattle.lint_pass.specs.lint_transaction.Tracking.{IsTracking};
ghost use Rattle.pass_concurrent.specs.RequireConcurrentIndexCreation.{report, reports_on};

use crate::concurrently::plain_report;
use lint_pass::{
    Body, LinterSettings, NoMemory, Parse, Reports, Rule, RulePass, Seen, Stmt,
    TablesCreatedInTransaction, Text, Violation,
};
use std::alloc::Global;

const MESSAGE: &str =
    "during normal index creation, table updates are blocked, but reads are still allowed";

const HELP: &str = "use `concurrently` to avoid blocking writes";

/// Reports each CREATE INDEX without CONCURRENTLY, except on a table that the same open transaction created.
///
/// Such a build takes a SHARE lock on the table: reads go on, but every INSERT, UPDATE and DELETE waits until the whole
/// index is built, which on a large table takes minutes or hours. With CONCURRENTLY the build takes longer and blocks
/// none of them. On a table that the transaction created nobody waits, since no one else sees it yet.
///
/// PostgreSQL manual, CREATE INDEX, "Building Indexes Concurrently", and section 13.3.1.
#[derive(Drop)]
pub struct RequireConcurrentIndexCreation;

/// The report of an index build whose word INDEX has this number.
#[tactic(auto, unfolding(crate::specs::RequireConcurrentIndexCreation::report))]
fn report(alloc: Global, p: &Parse<'_>, s: &Stmt, word: u32) -> Result<Violation, NoMemory>
    ensures { IfOk result (λ v. v ≡ report p.now s.now word) }
{
    let code = Rule::RequireConcurrentIndexCreation;
    let message = Text::plain(MESSAGE);
    let help = Text::plain(HELP);
    plain_report(alloc, code, message, help, p, p.stmt_range(s), word)
}

/// Reports a statement that builds an index without CONCURRENTLY, unless the open transaction created its table.
fn report_build(
    alloc: Global,
    created: &TablesCreatedInTransaction<'_>,
    p: &Parse<'_>,
    s: &Stmt,
    out: &mut Reports,
) -> Result<(), NoMemory>
    ensures ok { OnOk result ((settings : LinterSettings) (i : ℕ) → IsTracking p.now settings.assume_in_transaction i created.now
        → out.new ≡ out.old ++ reports_on settings p.now i s.now) }
    ensures err { OnErr result (out.new ≡ out.old) }
{
    match s.body {
        Body::Index {
            word,
            concurrently: None,
            path,
            ..
        } => {
            let is_new = created.contains_at(p, path)?;
            if is_new {
                Ok(())
            } else {
                out.push(report(alloc, p, s, word)?)
            }
        }
        _ => Ok(()),
    }
}

impl RulePass for RequireConcurrentIndexCreation {
    ghost use Rattle.std.specs.Prelude.{false};
    ghost use Rattle.lint_pass.specs.lint_base.declared.rule.Rule.TheVariants as rule;
    ghost use Rattle.lint_pass.specs.lint_transaction.Transaction.{stmt_at};
    ghost use Rattle.pass_concurrent.specs.RequireConcurrentIndexCreation.{reports_on};
    ghost use Rattle.pass_concurrent.specs.BuildLaws.{builds_coded, builds_placed};

    type Memory = Global;

    ghost code = { λ _. rule.RequireConcurrentIndexCreation };

    ghost knows = { λ _ _ _ _ _. Unit {0} };

    ghost wants = { λ _. false };

    ghost reports = { λ _ tree set i. reports_on set tree i (stmt_at tree i) };

    ghost coded = { λ _ tree set i. builds_coded tree set i (stmt_at tree i) };

    ghost placed = { λ _ tree set i. builds_placed tree set i (stmt_at tree i) };

    fn code(&self) -> Rule {
        Rule::RequireConcurrentIndexCreation
    }

    fn wants_blocks(&self) -> bool {
        false
    }

    fn begin(&self, alloc: Global, _set: &LinterSettings) -> Result<Global, NoMemory> {
        Ok(alloc)
    }

    fn visit(
        &self,
        memory: &mut Global,
        p: &Parse<'_>,
        _i: u32,
        s: &Stmt,
        seen: &Seen<'_>,
        _set: &LinterSettings,
        out: &mut Reports,
    ) -> Result<(), NoMemory> {
        report_build(*memory, &seen.created, p, s, out)
    }
}
