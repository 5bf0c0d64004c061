//! Indexes that are dropped under a lock that blocks reads.

ghost use Rattle.std.specs.Prelude.{◌≡◌, ◌++◌, OnOk, OnErr, IfOk};
ghost use Rattle.pass_concurrent.specs.RequireConcurrentIndexDeletion as spec;
ghost use Rattle.pass_concurrent.specs.RequireConcurrentIndexDeletion.{reports_of_require_concurrent_index_deletion};

use crate::concurrently::plain_report;
use lint_pass::{
    Body, LinterSettings, NoMemory, Parse, Reports, Rule, StatementPass, Stmt, Text, Violation,
    is_plain_drop,
};
use std::alloc::Global;

const MESSAGE: &str =
    "a normal `drop index` acquires an `access exclusive` lock on the table, blocking other accesses until the index drop can complete";

const HELP: &str = "drop the index `concurrently`";

/// Reports each DROP INDEX without CONCURRENTLY.
///
/// It takes an ACCESS EXCLUSIVE lock on the index's table. The drop itself is quick, but it waits for every transaction that uses
/// the table, and all reads and writes that come later wait for it. With CONCURRENTLY it waits for conflicting transactions
/// without blocking anyone; it then runs in no transaction block, drops one index at a time, and takes no CASCADE.
///
/// PostgreSQL manual, DROP INDEX, "CONCURRENTLY".
#[derive(Drop)]
pub struct RequireConcurrentIndexDeletion;

/// The number of the word INDEX.
fn index_word(body: &Body) -> u32
    ensures { result ≡ spec.index_word body.now }
{
    match body {
        Body::Drop { word, .. } => *word,
        _ => 0,
    }
}

#[tactic(auto, unfolding(crate::specs::RequireConcurrentIndexDeletion::report))]
fn report(alloc: Global, p: &Parse<'_>, s: &Stmt) -> Result<Violation, NoMemory>
    ensures { IfOk result (λ v. v ≡ spec.report p.now s.now) }
{
    let code = Rule::RequireConcurrentIndexDeletion;
    let message = Text::plain(MESSAGE);
    let help = Text::plain(HELP);
    let word = index_word(&s.body);
    plain_report(alloc, code, message, help, p, p.stmt_range(s), word)
}

/// Reports a statement that drops indexes without CONCURRENTLY.
fn report_drop(alloc: Global, p: &Parse<'_>, s: &Stmt, out: &mut Reports) -> Result<(), NoMemory>
    ensures ok { OnOk result (out.new ≡ out.old ++ reports_of_require_concurrent_index_deletion p.now s.now) }
    ensures err { OnErr result (out.new ≡ out.old) }
{
    if is_plain_drop(s) {
        out.push(report(alloc, p, s)?)
    } else {
        Ok(())
    }
}

impl StatementPass for RequireConcurrentIndexDeletion {
    ghost use Rattle.lint_pass.specs.lint_base.declared.rule.Rule.TheVariants as rule;
    ghost use Rattle.pass_concurrent.specs.RequireConcurrentIndexDeletion.{reports_of_require_concurrent_index_deletion};
    ghost use Rattle.pass_concurrent.specs.RequireConcurrentIndexDeletionLaws.{deletions_coded, deletions_placed};

    ghost code = { λ _. rule.RequireConcurrentIndexDeletion };

    ghost reports = { λ _ tree _ s. reports_of_require_concurrent_index_deletion tree s };

    ghost coded = { λ _ tree _ s. deletions_coded tree s };

    ghost placed = { λ _ tree _ s. deletions_placed tree s };

    fn code(&self) -> Rule {
        Rule::RequireConcurrentIndexDeletion
    }

    fn report(
        &self,
        alloc: Global,
        p: &Parse<'_>,
        s: &Stmt,
        _set: &LinterSettings,
        out: &mut Reports,
    ) -> Result<(), NoMemory> {
        report_drop(alloc, p, s, out)
    }
}
