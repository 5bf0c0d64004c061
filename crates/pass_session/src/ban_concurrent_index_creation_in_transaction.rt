//! Index builds with CONCURRENTLY in a transaction.

ghost use Rattle.std.specs.Prelude.{◌≡◌, ◌++◌, [], OnOk, OnErr, if◌then◌else◌};
ghost use Rattle.pass_session.specs.BanConcurrentIndexCreationInTransaction as spec;
ghost use Rattle.pass_session.specs.BanConcurrentIndexCreationInTransaction.{build_report};

use lint_pass::{
    Body, LinterSettings, NoMemory, OpenTransaction, Parse, Reports, Rule, RulePass, Seen, Stmt,
    Text, Violation,
};
use std::alloc::Global;

const MESSAGE: &str =
    "while regular index creation can happen inside a transaction, this is not allowed when the `concurrently` option is used";

const HELP: &str = "build the index outside any transactions";

/// Reports each CREATE INDEX CONCURRENTLY in an open transaction of a text of more than one statement.
///
/// PostgreSQL refuses such a build in a transaction block, so that the migration fails at it, each time it is run. The build
/// needs several transactions of its own, between which it waits for others to end.
///
/// PostgreSQL manual, CREATE INDEX, "Building Indexes Concurrently".
#[derive(Drop)]
pub struct BanConcurrentIndexCreationInTransaction;

/// The report of the word CONCURRENTLY of this number.
#[tactic(auto, unfolding(crate::specs::BanConcurrentIndexCreationInTransaction::report))]
fn report(p: &Parse<'_>, word: u32) -> Violation
    ensures { result ≡ spec.report p.now word }
{
    Violation {
        code: Rule::BanConcurrentIndexCreationInTransaction,
        message: Text::plain(MESSAGE),
        text_range: p.span_range(word, word),
        note: None,
        help: Some(Text::plain(HELP)),
        fix: None,
    }
}

/// The word CONCURRENTLY of an index build.
fn concurrent_word(s: &Stmt) -> Option<u32>
    ensures { result ≡ spec.concurrent_word s.now.body }
{
    match &s.body {
        Body::Index { concurrently, .. } => *concurrently,
        _ => None,
    }
}

/// Whether the text has more than one statement.
fn has_more(p: &Parse<'_>) -> bool
    ensures { result ≡ spec.has_more p.now }
{
    1 < p.tree().stmts.len()
}

/// Reports an index build with CONCURRENTLY, where it is in a transaction.
fn report_build(is_inside: bool, p: &Parse<'_>, s: &Stmt, out: &mut Reports) -> Result<(), NoMemory>
    ensures ok { OnOk result (out.new ≡ out.old ++ (if is_inside then build_report p.now s.now else [])) }
    ensures err { OnErr result (out.new ≡ out.old) }
{
    match concurrent_word(s) {
        Some(word) if is_inside => out.push(report(p, word)),
        _ => Ok(()),
    }
}

impl RulePass for BanConcurrentIndexCreationInTransaction {
    ghost use Rattle.std.specs.Prelude.{◌≡◌, false};
    ghost use Rattle.lint_pass.specs.lint_base.declared.rule.Rule.TheVariants as rule;
    ghost use Rattle.lint_pass.specs.lint_transaction.Transaction.{is_open, stmt_at};
    ghost use Rattle.pass_session.specs.BanConcurrentIndexCreationInTransaction.{reports_on};
    ghost use Rattle.pass_session.specs.BanConcurrentIndexCreationInTransactionLaws.{builds_coded, builds_placed};

    type Memory = OpenTransaction;

    ghost code = { λ _. rule.BanConcurrentIndexCreationInTransaction };

    ghost knows = { λ _ memory tree set i. memory ≡ is_open set.assume_in_transaction tree i };

    ghost wants = { λ _. false };

    ghost reports = { λ _ tree set i. reports_on set tree i (stmt_at tree i) };

    ghost coded = { λ _ tree set i. builds_coded set tree i (stmt_at tree i) };

    ghost placed = { λ _ tree set i. builds_placed set tree i (stmt_at tree i) };

    fn code(&self) -> Rule {
        Rule::BanConcurrentIndexCreationInTransaction
    }

    fn wants_blocks(&self) -> bool {
        false
    }

    fn begin(&self, _alloc: Global, set: &LinterSettings) -> Result<OpenTransaction, NoMemory> {
        Ok(OpenTransaction::new(set.assume_in_transaction))
    }

    fn visit(
        &self,
        memory: &mut OpenTransaction,
        p: &Parse<'_>,
        _i: u32,
        s: &Stmt,
        _seen: &Seen<'_>,
        _set: &LinterSettings,
        out: &mut Reports,
    ) -> Result<(), NoMemory> {
        report_build(memory.inside() && has_more(p), p, s, out)?;
        memory.update(s);
        Ok(())
    }
}
