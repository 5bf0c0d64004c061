//! Indexes that are rebuilt under a lock that blocks writes.

ghost use Rattle.std.specs.Prelude.{◌≡◌, ◌++◌, OnOk, OnErr, IfOk};
ghost use Rattle.pass_concurrent.specs.RequireConcurrentReindex as spec;
ghost use Rattle.pass_concurrent.specs.RequireConcurrentReindex.{reports_of_require_concurrent_reindex};

use crate::concurrently::plain_report;
use lint_pass::{
    Body, LinterSettings, NoMemory, Parse, Reports, Rule, StatementPass, Stmt, Text, Violation,
    is_plain_reindex,
};
use std::alloc::Global;

const MESSAGE: &str = "reindexing a table or index without `concurrently` blocks reads and writes";

const HELP: &str = "use `concurrently` to avoid blocking reads and writes";

/// Reports each REINDEX without CONCURRENTLY, but of SYSTEM, which can't be done so.
///
/// It takes a SHARE lock on the table and an ACCESS EXCLUSIVE lock on the index that is rebuilt: writes wait, and so does each
/// query whose planner looks at that index, which is nearly each on the table. With CONCURRENTLY the rebuild takes longer and
/// blocks neither.
///
/// PostgreSQL manual, REINDEX, Notes and "Rebuilding Indexes Concurrently".
#[derive(Drop)]
pub struct RequireConcurrentReindex;

/// The number of the word that names the target.
fn target_word(body: &Body) -> u32
    ensures { result ≡ spec.target_word body.now }
{
    match body {
        Body::Reindex { word, .. } => *word,
        _ => 0,
    }
}

#[tactic(auto, unfolding(crate::specs::RequireConcurrentReindex::report))]
fn report(alloc: Global, p: &Parse<'_>, s: &Stmt) -> Result<Violation, NoMemory>
    ensures { IfOk result (λ v. v ≡ spec.report p.now s.now) }
{
    let code = Rule::RequireConcurrentReindex;
    let message = Text::plain(MESSAGE);
    let help = Text::plain(HELP);
    let word = target_word(&s.body);
    plain_report(alloc, code, message, help, p, p.stmt_range(s), word)
}

/// Reports a statement that reports_of_require_concurrent_reindex indexes without CONCURRENTLY, though it could.
fn report_rebuild(alloc: Global, p: &Parse<'_>, s: &Stmt, out: &mut Reports) -> Result<(), NoMemory>
    ensures ok { OnOk result (out.new ≡ out.old ++ reports_of_require_concurrent_reindex p.now s.now) }
    ensures err { OnErr result (out.new ≡ out.old) }
{
    if is_plain_reindex(s) {
        out.push(report(alloc, p, s)?)
    } else {
        Ok(())
    }
}

impl StatementPass for RequireConcurrentReindex {
    ghost use Rattle.lint_pass.specs.lint_base.declared.rule.Rule.TheVariants as rule;
    ghost use Rattle.pass_concurrent.specs.RequireConcurrentReindex.{reports_of_require_concurrent_reindex};
    ghost use Rattle.pass_concurrent.specs.RequireConcurrentReindexLaws.{rebuilds_coded, rebuilds_placed};

    ghost code = { λ _. rule.RequireConcurrentReindex };

    ghost reports = { λ _ tree _ s. reports_of_require_concurrent_reindex tree s };

    ghost coded = { λ _ tree _ s. rebuilds_coded tree s };

    ghost placed = { λ _ tree _ s. rebuilds_placed tree s };

    fn code(&self) -> Rule {
        Rule::RequireConcurrentReindex
    }

    fn report(
        &self,
        alloc: Global,
        p: &Parse<'_>,
        s: &Stmt,
        _set: &LinterSettings,
        out: &mut Reports,
    ) -> Result<(), NoMemory> {
        report_rebuild(alloc, p, s, out)
    }
}
