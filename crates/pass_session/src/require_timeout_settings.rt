//! Slow statements without a timeout.

ghost use Rattle.std.specs.Prelude.{◌≡◌, ◌++◌, ◌&&◌, ◌||◌, not, [], ℕ, IfOk, OnOk, OnErr, if◌then◌else◌};
ghost use Rattle.lint_pass.specs.sql_tree.Statement.{Tree};
ghost use Rattle.lint_pass.specs.lint_base.Grown.{GrownBy};
ghost use Rattle.lint_pass.specs.lint_base.RuleSets.{both_rules, no_rules, with_rule};
ghost use Rattle.lint_pass.specs.lint_base.declared.rule.Rule.TheVariants as rule;
ghost use Rattle.std.specs.Str.{bytes_eq};
ghost use Rattle.lint_pass.specs.lint_transaction.Names.{name_at};
ghost use Rattle.lint_lock.specs.Slow as slow;
ghost use Rattle.lint_pass.specs.lint_transaction.Transaction.{stmt_at};
ghost use Rattle.pass_session.specs.RequireTimeoutSettings as spec;
ghost use Rattle.pass_session.specs.RequireTimeoutSettings.{both_reports, lock_message, lock_note, lock_reports, lock_timeout, setting_fix, sets, statement_reports, statement_timeout, timeout_rules};
ghost use Rattle.pass_session.specs.RequireTimeoutSettingsWalk.{IsWatching};

use crate::tokens::first_place;
use lint_lock::LockKind;
use lint_lock::analyze::possibly_slow_stmt;
use lint_pass::{
    Body, Fix, LinterSettings, NoMemory, Parse, Reports, Rule, RuleSet, Seen, Span, StepPass, Stmt,
    Text, Violation, insertion_fix, line_ending, name_at,
};
use std::alloc::Global;

const LOCK_TIMEOUT: &str = "lock_timeout";

const STATEMENT_TIMEOUT: &str = "statement_timeout";

const UNKNOWN_LOCK_MESSAGE: &str = "missing `set lock_timeout` before potentially slow operations";

const LOCK_HELP: &str = "configure a `lock_timeout` before this statement";

const LOCK_TITLE: &str = "Add lock timeout";

const LOCK_SETTING: &str = "set lock_timeout = '1s';";

const STATEMENT_MESSAGE: &str =
    "missing `set statement_timeout` before potentially slow operations";

const STATEMENT_HELP: &str = "configure a `statement_timeout` before this statement";

const STATEMENT_TITLE: &str = "Add statement timeout";

const STATEMENT_SETTING: &str = "set statement_timeout = '5s';";

/// Reports the first slow statement of a text, where `lock_timeout` was not set before it, and where `statement_timeout` was not.
///
/// A statement that waits for a lock makes each later one on the table wait too, readers included; with a lock timeout it gives
/// up, and the migration is run again when the table is free. Without a statement timeout a statement that takes much longer than
/// expected holds its locks as long as it runs. Both are off by default.
///
/// PostgreSQL manual, section 20.11.1, `lock_timeout` and `statement_timeout`; section 13.3.1.
#[derive(Drop)]
pub struct RequireTimeoutSettings;

/// Whether a slow statement came, and which timeouts were set.
#[derive(Drop)]
pub struct RequireTimeoutSettingsState {
    alloc: Global,
    was_slow: bool,
    lock_set: bool,
    statement_set: bool,
}

// ---- statements

/// The path of the parameter of a SET.
fn parameter(s: &Stmt) -> Option<Span>
    ensures { result ≡ spec.parameter_by s.now.body }
{
    match &s.body {
        Body::Setting { name } => *name,
        _ => None,
    }
}

/// Whether the name of this token is `name`.
fn is_name(p: &Parse<'_>, number: u32, name: &str) -> bool
    ensures { result ≡ bytes_eq (name_at p.now number) name.now }
{
    name_at(p, number).is(name)
}

/// Whether a statement sets the parameter of this name.
fn sets(p: &Parse<'_>, name: &str, s: &Stmt) -> bool
    ensures { result ≡ sets p.now name.now s.now }
{
    match parameter(s) {
        Some(path) => path.first == path.last && is_name(p, path.first, name),
        None => false,
    }
}

// ---- reports

fn is_unknown(lock: LockKind) -> bool
    ensures { result ≡ spec.is_unknown lock }
{
    matches!(lock, LockKind::Unknown)
}

fn lock_message(alloc: Global, lock: LockKind) -> Result<Text, NoMemory>
    ensures { IfOk result (λ text. text ≡ lock_message lock) }
{
    if is_unknown(lock) {
        return Ok(Text::plain(UNKNOWN_LOCK_MESSAGE));
    }
    Ok(Text::made(format!(in alloc;
        "missing `set lock_timeout` before potentially slow {lock} lock operations"
    )?))
}

fn lock_note(alloc: Global, lock: LockKind) -> Result<Option<Text>, NoMemory>
    ensures { IfOk result (λ note. note ≡ lock_note lock) }
{
    if is_unknown(lock) {
        return Ok(None);
    }
    let impact = lock.impact();
    Ok(Some(Text::made(format!(in alloc; "statement requires: {lock} lock; blocking: {impact}")?)))
}

/// The fix that puts a SET on a line of its own, before the first significant token of the text.
fn setting_fix(alloc: Global, p: &Parse<'_>, title: Text, setting: &str) -> Result<Fix, NoMemory>
    ensures { IfOk result (λ fix. fix ≡ setting_fix p.now title setting.now) }
{
    let ending = line_ending(p.text()).as_str();
    let line = Text::made(format!(in alloc; "{setting}{ending}")?);
    insertion_fix(alloc, title, line, first_place(p))
}

#[tactic(auto, unfolding(crate::specs::RequireTimeoutSettings::lock_report))]
fn lock_report(alloc: Global, p: &Parse<'_>, s: &Stmt) -> Result<Violation, NoMemory>
    ensures { IfOk result (λ v. v ≡ spec.lock_report p.now s.now) }
{
    let lock = LockKind::of(p, s);
    let message = lock_message(alloc, lock)?;
    let note = lock_note(alloc, lock)?;
    let fix = setting_fix(alloc, p, Text::plain(LOCK_TITLE), LOCK_SETTING)?;
    Ok(Violation {
        code: Rule::RequireLockTimeout,
        message,
        text_range: p.stmt_range(s),
        note,
        help: Some(Text::plain(LOCK_HELP)),
        fix: Some(fix),
    })
}

#[tactic(auto, unfolding(crate::specs::RequireTimeoutSettings::statement_report))]
fn statement_report(alloc: Global, p: &Parse<'_>, s: &Stmt) -> Result<Violation, NoMemory>
    ensures { IfOk result (λ v. v ≡ spec.statement_report p.now s.now) }
{
    let fix = setting_fix(alloc, p, Text::plain(STATEMENT_TITLE), STATEMENT_SETTING)?;
    Ok(Violation {
        code: Rule::RequireStatementTimeout,
        message: Text::plain(STATEMENT_MESSAGE),
        text_range: p.stmt_range(s),
        note: None,
        help: Some(Text::plain(STATEMENT_HELP)),
        fix: Some(fix),
    })
}

impl RequireTimeoutSettingsState {
    /// Reports that no lock timeout was set before a statement.
    fn report_lock(
        &self,
        p: &Parse<'_>,
        s: &Stmt,
        rules: &RuleSet,
        out: &mut Reports,
    ) -> Result<(), NoMemory>
        ensures ok { OnOk result (out.new ≡ out.old ++ lock_reports self.now.lock_set p.now rules.now s.now) }
        ensures err { OnErr result (out.new ≡ out.old) }
    {
        if rules.contains(Rule::RequireLockTimeout) && !self.lock_set {
            out.push(lock_report(self.alloc, p, s)?)
        } else {
            Ok(())
        }
    }

    /// Reports that no statement timeout was set before a statement.
    fn report_statement(
        &self,
        p: &Parse<'_>,
        s: &Stmt,
        rules: &RuleSet,
        out: &mut Reports,
    ) -> Result<(), NoMemory>
        ensures ok { OnOk result (out.new ≡ out.old ++ statement_reports self.now.statement_set p.now rules.now s.now) }
        ensures err { OnErr result (out.new ≡ out.old) }
    {
        if rules.contains(Rule::RequireStatementTimeout) && !self.statement_set {
            out.push(statement_report(self.alloc, p, s)?)
        } else {
            Ok(())
        }
    }

    /// Reports both, where the statement is the first slow one.
    fn report(
        &self,
        is_slow: bool,
        p: &Parse<'_>,
        s: &Stmt,
        rules: &RuleSet,
        out: &mut Reports,
    ) -> Result<(), NoMemory>
        ensures ok { OnOk result (out.new ≡ out.old ++ (if is_slow && not self.now.was_slow
            then both_reports self.now.lock_set self.now.statement_set p.now rules.now s.now else [])) }
        ensures err { OnErr result (GrownBy out.old out.new (if is_slow && not self.now.was_slow
            then both_reports self.now.lock_set self.now.statement_set p.now rules.now s.now else [])) }
    {
        if is_slow && !self.was_slow {
            self.report_lock(p, s, rules, out)?;
            self.report_statement(p, s, rules, out)?;
        }
        Ok(())
    }

    /// Goes after a statement.
    fn go_after(&mut self, is_slow: bool, p: &Parse<'_>, s: &Stmt)
        ensures slow { self.new.was_slow ≡ (self.old.was_slow || is_slow) }
        ensures lock { self.new.lock_set ≡ (self.old.lock_set || sets p.now lock_timeout s.now) }
        ensures statement { self.new.statement_set ≡ (self.old.statement_set || sets p.now statement_timeout s.now) }
    {
        self.was_slow = self.was_slow || is_slow;
        self.lock_set = self.lock_set || sets(p, LOCK_TIMEOUT, s);
        self.statement_set = self.statement_set || sets(p, STATEMENT_TIMEOUT, s);
    }
}

fn rules() -> RuleSet
    ensures { result ≡ timeout_rules }
{
    let mut lock = RuleSet::empty();
    lock.insert(Rule::RequireLockTimeout);
    let mut statement = RuleSet::empty();
    statement.insert(Rule::RequireStatementTimeout);
    lock.union(statement)
}

impl StepPass for RequireTimeoutSettings {
    ghost use Rattle.std.specs.Prelude.{[], false};
    ghost use Rattle.std.proofs.lemmas.List.{append-nil};
    ghost use Rattle.pass_session.specs.RequireTimeoutSettings.{reports_of_require_timeout_settings, timeout_rules, timeouts_at};
    ghost use Rattle.pass_session.specs.RequireTimeoutSettingsLaws.{timeouts_apart, timeouts_coded, timeouts_placed};
    ghost use Rattle.pass_session.specs.RequireTimeoutSettingsWalk.{IsWatching};

    type State = RequireTimeoutSettingsState;

    ghost own = { λ _. timeout_rules };

    ghost at = { λ _ state tree _ _ i. IsWatching tree i state.was_slow state.lock_set state.statement_set };

    ghost wants = { λ _ _. false };

    ghost reports_at = { λ _ tree r _ i. timeouts_at tree r i };

    ghost tail = { λ _ _ _ _. [] };

    ghost table = { λ _ tree r _. reports_of_require_timeout_settings tree r };

    ghost whole = { λ _ tree r _. append-nil (reports_of_require_timeout_settings tree r) };

    ghost coded = { λ _ tree r _. timeouts_coded tree r };

    ghost placed = { λ _ tree r _ read. timeouts_placed tree r read };

    ghost apart = { λ _ tree _ q some others same. timeouts_apart tree q some others same };

    fn rules(&self) -> RuleSet {
        rules()
    }

    fn wants_blocks(&self, _rules: &RuleSet) -> bool {
        false
    }

    fn start(
        &self,
        alloc: Global,
        _set: &LinterSettings,
    ) -> Result<RequireTimeoutSettingsState, NoMemory> {
        Ok(RequireTimeoutSettingsState {
            alloc,
            was_slow: false,
            lock_set: false,
            statement_set: false,
        })
    }

    fn step(
        &self,
        state: &mut RequireTimeoutSettingsState,
        p: &Parse<'_>,
        _i: u32,
        s: &Stmt,
        _seen: &Seen<'_>,
        rules: &RuleSet,
        _set: &LinterSettings,
        out: &mut Reports,
    ) -> Result<(), NoMemory> {
        let is_slow = possibly_slow_stmt(p, s);
        state.report(is_slow, p, s, rules, out)?;
        state.go_after(is_slow, p, s);
        Ok(())
    }

    fn finish(
        &self,
        _alloc: Global,
        _state: RequireTimeoutSettingsState,
        _p: &Parse<'_>,
        _rules: &RuleSet,
        _set: &LinterSettings,
        _out: &mut Reports,
    ) -> Result<(), NoMemory> {
        Ok(())
    }
}
