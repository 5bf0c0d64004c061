//! Partitions that are detached under a lock that blocks reads.

ghost use Rattle.std.specs.Prelude.{◌≡◌, ◌++◌, OnOk, OnErr, IfOk};
ghost use Rattle.lint_pass.specs.lint_base.Grown.{GrownBy};
ghost use Rattle.lint_pass.specs.lint_node.Plain as plain;
ghost use Rattle.lint_pass.specs.Those.{that, those};
ghost use Rattle.pass_concurrent.specs.RequireConcurrentPartitionDetach as spec;

use crate::concurrently::plain_report;
use lint_pass::{
    Action, LinterSettings, NoMemory, Parse, Reports, Rule, Span, StatementPass, Stmt, Text,
    Violation, is_plain_detach, table_actions,
};
use std::alloc::Global;

const MESSAGE: &str =
    "detaching a partition requires an `access exclusive` lock, which prevents reads and writes to the table";

const HELP: &str = "detach the partition `concurrently`";

/// Reports each DETACH PARTITION with neither CONCURRENTLY nor FINALIZE.
///
/// It takes an ACCESS EXCLUSIVE lock on the partitioned table, so it waits for every transaction that uses any partition, and all
/// reads and writes that come later wait for it. With CONCURRENTLY it takes a SHARE UPDATE EXCLUSIVE lock on that table, in two
/// transactions; FINALIZE ends one that was interrupted.
///
/// PostgreSQL manual, ALTER TABLE, "DETACH PARTITION"; from PostgreSQL 14 on.
#[derive(Drop)]
pub struct RequireConcurrentPartitionDetach;

/// The last token of the partition's path.
fn end_of(path: Option<Span>) -> u32
    ensures { result ≡ spec.end_of path }
{
    match path {
        Some(path) => path.last,
        None => 0,
    }
}

#[tactic(auto, unfolding(crate::specs::RequireConcurrentPartitionDetach::report))]
fn report(alloc: Global, p: &Parse<'_>, a: &Action) -> Result<Violation, NoMemory>
    ensures { IfOk result (λ v. v ≡ spec.report p.now a.now) }
{
    let code = Rule::RequireConcurrentPartitionDetach;
    let message = Text::plain(MESSAGE);
    let help = Text::plain(HELP);
    let range = p.span_range(a.first, a.last);
    plain_report(alloc, code, message, help, p, range, end_of(a.path))
}

/// Reports an action that detaches a partition so.
fn report_action(
    alloc: Global,
    p: &Parse<'_>,
    a: &Action,
    out: &mut Reports,
) -> Result<(), NoMemory>
    ensures ok { OnOk result (out.new ≡ out.old ++ that plain.is_plain_detach (spec.report p.now) a.now) }
    ensures err { OnErr result (out.new ≡ out.old) }
{
    if is_plain_detach(a) {
        out.push(report(alloc, p, a)?)
    } else {
        Ok(())
    }
}

/// Reports each action that detaches a partition so.
fn report_actions(
    alloc: Global,
    p: &Parse<'_>,
    actions: &[Action],
    out: &mut Reports,
) -> Result<(), NoMemory>
    ensures ok { OnOk result (out.new ≡ out.old ++ those plain.is_plain_detach (spec.report p.now) actions.now) }
    ensures err { OnErr result (GrownBy out.old out.new (those plain.is_plain_detach (spec.report p.now) actions.now)) }
{
    for a in actions {
        report_action(alloc, p, a, out)?;
    }
    Ok(())
}

impl StatementPass for RequireConcurrentPartitionDetach {
    ghost use Rattle.lint_pass.specs.lint_base.declared.rule.Rule.TheVariants as rule;
    ghost use Rattle.pass_concurrent.specs.RequireConcurrentPartitionDetach.{reports_of_require_concurrent_partition_detach};
    ghost use Rattle.pass_concurrent.specs.RequireConcurrentPartitionDetachLaws.{detachments_coded, detachments_placed};

    ghost code = { λ _. rule.RequireConcurrentPartitionDetach };

    ghost reports = { λ _ tree _ s. reports_of_require_concurrent_partition_detach tree s };

    ghost coded = { λ _ tree _ s. detachments_coded tree s };

    ghost placed = { λ _ tree _ s. detachments_placed tree s };

    fn code(&self) -> Rule {
        Rule::RequireConcurrentPartitionDetach
    }

    fn report(
        &self,
        alloc: Global,
        p: &Parse<'_>,
        s: &Stmt,
        _set: &LinterSettings,
        out: &mut Reports,
    ) -> Result<(), NoMemory> {
        report_actions(alloc, p, table_actions(s), out)
    }
}
