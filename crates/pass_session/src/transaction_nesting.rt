//! Transactions that begin or end at a wrong place.

ghost use Rattle.std.specs.Prelude.{◌≡◌, ◌++◌, ◌&&◌, ◌||◌, not, OnOk, OnErr};
ghost use Rattle.lint_pass.specs.lint_transaction.Transaction.{is_begin_kind};
ghost use Rattle.lint_pass.specs.Blocks.{is_end_kind};
ghost use Rattle.pass_session.specs.TransactionNesting as spec;
ghost use Rattle.pass_session.specs.TransactionNesting.{begin_reports, bound_reports, end_reports};

use lint_pass::{
    LinterSettings, NoMemory, Parse, Reports, Rule, RulePass, Seen, Stmt, Text, Violation, begins,
    is_end,
};
use std::alloc::Global;

const MANAGED_BEGIN_MESSAGE: &str =
    "there is an existing transaction already in progress, managed by your migration tool";

const NESTED_BEGIN_MESSAGE: &str = "there is an existing transaction already in progress";

const MANAGED_END_MESSAGE: &str =
    "attempting to end the transaction that is managed by your migration tool";

const STRAY_END_MESSAGE: &str = "there is no transaction to `commit` or `rollback`";

const HELP_TO_MOVE: &str =
    "move these statements to a separate migration file, or turn off the `assume-in-transaction` setting";

const HELP_TO_BEGIN: &str =
    "`begin` a transaction at an earlier point in the migration or remove this statement";

/// Reports each BEGIN in a transaction, and each COMMIT and ROLLBACK without one. Where the text is run in the transaction of a
/// migration tool, it reports each of the three.
///
/// PostgreSQL has no transactions in transactions: a second BEGIN does nothing but warn, and the next COMMIT ends all, so that
/// the statements after it run one by one, and stay half done where one fails. A COMMIT in the transaction of a migration tool
/// makes a migration permanent that the tool has not recorded yet.
///
/// PostgreSQL manual, BEGIN, "Notes"; COMMIT, "Notes"; ROLLBACK, "Notes"; section 3.4.
#[derive(Drop)]
pub struct TransactionNesting;

/// Whether a transaction is open: the last BEGIN, COMMIT or ROLLBACK is a BEGIN.
#[derive(Drop)]
pub struct TransactionNestingMemory {
    is_in_transaction: bool,
}

/// The report of a statement.
fn report(p: &Parse<'_>, message: Text, help: Text, s: &Stmt) -> Violation
    ensures { result ≡ spec.report p.now message help s.now }
{
    Violation {
        code: Rule::TransactionNesting,
        message,
        text_range: p.stmt_range(s),
        note: None,
        help: Some(help),
        fix: None,
    }
}

#[tactic(auto, unfolding(crate::specs::TransactionNesting::managed_begin))]
fn managed_begin(p: &Parse<'_>, s: &Stmt) -> Violation
    ensures { result ≡ spec.managed_begin p.now s.now }
{
    let message = Text::plain(MANAGED_BEGIN_MESSAGE);
    let help = Text::plain(HELP_TO_MOVE);
    report(p, message, help, s)
}

#[tactic(auto, unfolding(crate::specs::TransactionNesting::nested_begin))]
fn nested_begin(p: &Parse<'_>, s: &Stmt) -> Violation
    ensures { result ≡ spec.nested_begin p.now s.now }
{
    let message = Text::plain(NESTED_BEGIN_MESSAGE);
    let help = Text::plain(HELP_TO_MOVE);
    report(p, message, help, s)
}

#[tactic(auto, unfolding(crate::specs::TransactionNesting::managed_end))]
fn managed_end(p: &Parse<'_>, s: &Stmt) -> Violation
    ensures { result ≡ spec.managed_end p.now s.now }
{
    let message = Text::plain(MANAGED_END_MESSAGE);
    let help = Text::plain(HELP_TO_MOVE);
    report(p, message, help, s)
}

#[tactic(auto, unfolding(crate::specs::TransactionNesting::stray_end))]
fn stray_end(p: &Parse<'_>, s: &Stmt) -> Violation
    ensures { result ≡ spec.stray_end p.now s.now }
{
    let message = Text::plain(STRAY_END_MESSAGE);
    let help = Text::plain(HELP_TO_BEGIN);
    report(p, message, help, s)
}

/// Reports a BEGIN in a transaction.
fn report_begin(
    assumed: bool,
    in_transaction: bool,
    p: &Parse<'_>,
    s: &Stmt,
    out: &mut Reports,
) -> Result<(), NoMemory>
    ensures ok { OnOk result (out.new ≡ out.old ++ begin_reports assumed in_transaction p.now s.now) }
    ensures err { OnErr result (out.new ≡ out.old) }
{
    if assumed {
        out.push(managed_begin(p, s))
    } else if in_transaction {
        out.push(nested_begin(p, s))
    } else {
        Ok(())
    }
}

/// Reports a COMMIT or a ROLLBACK without a transaction of the text.
fn report_end(
    assumed: bool,
    in_transaction: bool,
    p: &Parse<'_>,
    s: &Stmt,
    out: &mut Reports,
) -> Result<(), NoMemory>
    ensures ok { OnOk result (out.new ≡ out.old ++ end_reports assumed in_transaction p.now s.now) }
    ensures err { OnErr result (out.new ≡ out.old) }
{
    if assumed {
        out.push(managed_end(p, s))
    } else if in_transaction {
        Ok(())
    } else {
        out.push(stray_end(p, s))
    }
}

/// Reports a statement that begins or ends a transaction at a wrong place.
fn report_bound(
    assumed: bool,
    in_transaction: bool,
    p: &Parse<'_>,
    s: &Stmt,
    out: &mut Reports,
) -> Result<(), NoMemory>
    ensures ok { OnOk result (out.new ≡ out.old ++ bound_reports assumed in_transaction p.now s.now) }
    ensures err { OnErr result (out.new ≡ out.old) }
{
    if begins(s) {
        report_begin(assumed, in_transaction, p, s, out)
    } else if is_end(s) {
        report_end(assumed, in_transaction, p, s, out)
    } else {
        Ok(())
    }
}

impl TransactionNestingMemory {
    /// Goes after a statement.
    fn go_after(&mut self, s: &Stmt)
        ensures { self.new.is_in_transaction ≡ (is_begin_kind s.now.kind || (self.old.is_in_transaction && not (is_end_kind s.now.kind))) }
    {
        if begins(s) {
            self.is_in_transaction = true;
        } else if is_end(s) {
            self.is_in_transaction = false;
        }
    }
}

impl RulePass for TransactionNesting {
    ghost use Rattle.std.specs.Prelude.{◌≡◌, false};
    ghost use Rattle.lint_pass.specs.lint_base.declared.rule.Rule.TheVariants as rule;
    ghost use Rattle.lint_pass.specs.lint_transaction.Transaction.{stmt_at};
    ghost use Rattle.pass_session.specs.TransactionNesting.{is_in_transaction, reports_on};
    ghost use Rattle.pass_session.specs.TransactionNestingLaws.{nesting_coded, nesting_placed};

    type Memory = TransactionNestingMemory;

    ghost code = { λ _. rule.TransactionNesting };

    ghost knows = { λ _ memory tree _ i. memory.is_in_transaction ≡ is_in_transaction tree i };

    ghost wants = { λ _. false };

    ghost reports = { λ _ tree set i. reports_on set tree i (stmt_at tree i) };

    ghost coded = { λ _ tree set i. nesting_coded set tree i (stmt_at tree i) };

    ghost placed = { λ _ tree set i. nesting_placed set tree i (stmt_at tree i) };

    fn code(&self) -> Rule {
        Rule::TransactionNesting
    }

    fn wants_blocks(&self) -> bool {
        false
    }

    fn begin(
        &self,
        _alloc: Global,
        _set: &LinterSettings,
    ) -> Result<TransactionNestingMemory, NoMemory> {
        Ok(TransactionNestingMemory {
            is_in_transaction: false,
        })
    }

    fn visit(
        &self,
        memory: &mut TransactionNestingMemory,
        p: &Parse<'_>,
        _i: u32,
        s: &Stmt,
        _seen: &Seen<'_>,
        set: &LinterSettings,
        out: &mut Reports,
    ) -> Result<(), NoMemory> {
        report_bound(
            set.assume_in_transaction,
            memory.is_in_transaction,
            p,
            s,
            out,
        )?;
        memory.go_after(s);
        Ok(())
    }
}
