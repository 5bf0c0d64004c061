//! Transactions that are left open.

ghost use Rattle.std.specs.Prelude.{◌≡◌, ◌++◌, length, IfOk, OnOk, OnErr, Some, None, if◌then◌else◌};
ghost use Rattle.lint_pass.specs.lint_base.RuleSets.{no_rules, with_rule};
ghost use Rattle.lint_pass.specs.lint_transaction.Transaction.{is_begin_kind};
ghost use Rattle.lint_pass.specs.Blocks.{is_end_kind};
ghost use Rattle.lint_pass.specs.lint_base.declared.rule.Rule.TheVariants as rule;
ghost use Rattle.lint_pass.specs.RuleTables.{where_of};
ghost use Rattle.pass_session.specs.BanUncommittedTransaction as spec;
ghost use Rattle.pass_session.specs.BanUncommittedTransaction.{commit_line, left_reports, tokens_of};

use lint_pass::{
    LinterSettings, NoMemory, Parse, Reports, Rule, RuleSet, Seen, Span, StepPass, Stmt, Text,
    TextSize, Violation, begins, insertion_fix, is_end, line_ending,
};
use std::alloc::Global;

const MESSAGE: &str = "transaction never committed or rolled back";

const HELP: &str = "add a `commit` or `rollback` statement to complete the transaction";

const TITLE: &str = "Add `commit`";

/// Reports the last BEGIN after which no COMMIT and no ROLLBACK comes.
///
/// When the session ends, PostgreSQL rolls back a transaction that is still open: the migration seems to have run, and nothing of
/// it is there. Until then each lock that the transaction took is held, and clients wait for it.
///
/// PostgreSQL manual, BEGIN and COMMIT; section 3.4.
#[derive(Drop)]
pub struct BanUncommittedTransaction;

/// The tokens of the BEGIN of the transaction that is open.
#[derive(Drop)]
pub struct BanUncommittedTransactionState {
    begin: Option<Span>,
}

/// COMMIT on a line of its own.
fn commit_line(alloc: Global, p: &Parse<'_>) -> Result<Text, NoMemory>
    ensures { IfOk result (λ text. text ≡ commit_line p.now) }
{
    let ending = line_ending(p.text()).as_str();
    Ok(Text::made(format!(in alloc; "{ending}COMMIT;{ending}")?))
}

/// Where the text ends.
fn text_end(p: &Parse<'_>) -> TextSize
    ensures { result ≡ length p.now.text }
{
    TextSize::new(p.text().len() as u32)
}

/// The report of the BEGIN of these tokens.
#[tactic(auto, unfolding(crate::specs::BanUncommittedTransaction::report))]
fn report(alloc: Global, p: &Parse<'_>, begin: Span) -> Result<Violation, NoMemory>
    ensures { IfOk result (λ v. v ≡ spec.report p.now begin) }
{
    let line = commit_line(alloc, p)?;
    let fix = insertion_fix(alloc, Text::plain(TITLE), line, text_end(p))?;
    Ok(Violation {
        code: Rule::BanUncommittedTransaction,
        message: Text::plain(MESSAGE),
        text_range: p.span_range(begin.first, begin.last),
        note: None,
        help: Some(Text::plain(HELP)),
        fix: Some(fix),
    })
}

/// Reports the BEGIN of a transaction that is left open.
fn report_left(
    alloc: Global,
    p: &Parse<'_>,
    begin: Option<Span>,
    out: &mut Reports,
) -> Result<(), NoMemory>
    ensures ok { OnOk result (out.new ≡ out.old ++ left_reports p.now begin) }
    ensures err { OnErr result (out.new ≡ out.old) }
{
    match begin {
        Some(begin) => out.push(report(alloc, p, begin)?),
        None => Ok(()),
    }
}

/// Reports it where the rule is enabled.
fn report_enabled(
    alloc: Global,
    p: &Parse<'_>,
    begin: Option<Span>,
    rules: &RuleSet,
    out: &mut Reports,
) -> Result<(), NoMemory>
    ensures ok { OnOk result (out.new ≡ out.old ++ where_of rule.BanUncommittedTransaction (left_reports p.now begin) rules.now) }
    ensures err { OnErr result (out.new ≡ out.old) }
{
    if rules.contains(Rule::BanUncommittedTransaction) {
        report_left(alloc, p, begin, out)
    } else {
        Ok(())
    }
}

impl BanUncommittedTransactionState {
    /// Goes after a statement.
    fn go_after(&mut self, s: &Stmt)
        ensures { self.new.begin ≡ (if is_begin_kind s.now.kind then Some (tokens_of s.now)
            else (if is_end_kind s.now.kind then None else self.old.begin)) }
    {
        if begins(s) {
            self.begin = Some(Span {
                first: s.first,
                last: s.last,
            });
        } else if is_end(s) {
            self.begin = None;
        }
    }
}

fn rules() -> RuleSet
    ensures { result ≡ with_rule no_rules rule.BanUncommittedTransaction }
{
    let mut rules = RuleSet::empty();
    rules.insert(Rule::BanUncommittedTransaction);
    rules
}

impl StepPass for BanUncommittedTransaction {
    ghost use Rattle.std.specs.Prelude.{◌≡◌, [], false, length};
    ghost use Rattle.lint_pass.specs.lint_base.declared.rule.Rule.TheVariants as rule;
    ghost use Rattle.lint_pass.specs.lint_base.RuleSets.{no_rules, with_rule};
    ghost use Rattle.lint_pass.specs.Pieces.{no_pieces};
    ghost use Rattle.pass_session.specs.BanUncommittedTransaction.{left_open, reports_of_ban_uncommitted_transaction};
    ghost use Rattle.pass_session.specs.BanUncommittedTransactionLaws.{uncommitted_apart, uncommitted_coded, uncommitted_placed};

    type State = BanUncommittedTransactionState;

    ghost own = { λ _. with_rule no_rules rule.BanUncommittedTransaction };

    ghost at = { λ _ state tree _ _ i. state.begin ≡ left_open tree i };

    ghost wants = { λ _ _. false };

    ghost reports_at = { λ _ _ _ _ _. [] };

    ghost tail = { λ _ tree r _. reports_of_ban_uncommitted_transaction tree r };

    ghost table = { λ _ tree r _. reports_of_ban_uncommitted_transaction tree r };

    ghost whole = { λ _ tree r _. no_pieces (reports_of_ban_uncommitted_transaction tree r) (length tree.stmts) };

    ghost coded = { λ _ tree r _. uncommitted_coded tree r };

    ghost placed = { λ _ tree r _ read. uncommitted_placed tree r read };

    ghost apart = { λ _ tree _ q some others same. uncommitted_apart tree q some others same };

    fn rules(&self) -> RuleSet {
        rules()
    }

    fn wants_blocks(&self, _rules: &RuleSet) -> bool {
        false
    }

    fn start(
        &self,
        _alloc: Global,
        _set: &LinterSettings,
    ) -> Result<BanUncommittedTransactionState, NoMemory> {
        Ok(BanUncommittedTransactionState { begin: None })
    }

    fn step(
        &self,
        state: &mut BanUncommittedTransactionState,
        _p: &Parse<'_>,
        _i: u32,
        s: &Stmt,
        _seen: &Seen<'_>,
        _rules: &RuleSet,
        _set: &LinterSettings,
        _out: &mut Reports,
    ) -> Result<(), NoMemory> {
        state.go_after(s);
        Ok(())
    }

    fn finish(
        &self,
        alloc: Global,
        state: BanUncommittedTransactionState,
        p: &Parse<'_>,
        rules: &RuleSet,
        _set: &LinterSettings,
        out: &mut Reports,
    ) -> Result<(), NoMemory> {
        report_enabled(alloc, p, state.begin, rules, out)
    }
}
