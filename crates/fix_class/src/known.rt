//! What is known of a statement by the settings and by the text around it.
ghost use Rattle.std.specs.Prelude.{◌≡◌, ◌+◌, Bool, IfOk};
ghost use Rattle.std.specs.List.{list_any};
ghost use Rattle.lint_transaction.specs.Earlier.{any_below};
ghost use Rattle.lint_transaction.specs.Transaction.{is_open, stmt_at};
ghost use Rattle.fix_class.specs.Known as spec;
ghost use Rattle.fix_class.specs.Known.{AreKnown};

use crate::partitioned::{is_on_partitioned, keep};
use lint_ignore::{
    ActionKind, Body, Parse, Span, Stmt, StmtKind, has_disable_assume_in_transaction,
};
use lint_node::has_action;
use lint_report::{LinterSettings, NoMemory};
use lint_transaction::{OpenTransaction, SpanKey, SpanSet, is_one_name};
use std::alloc::Global;

/// What is known of a statement by the settings and by the text around it.
#[derive(Clone, Copy, Debug, PartialEq, Eq)]
pub struct Known {
    /// A transaction is open before it.
    pub is_inside: bool,
    /// An earlier statement of the text sets a timeout.
    pub is_limited: bool,
    /// It builds an index on a partitioned table that the text makes.
    pub is_on_partitioned: bool,
    /// The text has work that runs outside of transactions alone, or that a fix may make so.
    pub has_outside_work: bool,
    /// The major version of PostgreSQL.
    pub major: i32,
}

fn is_assumed(p: &Parse<'_>, settings: &LinterSettings) -> bool
    ensures { result ≡ spec.is_assumed settings.now p.now }
{
    settings.assume_in_transaction && !has_disable_assume_in_transaction(p)
}

fn major_of(settings: &LinterSettings) -> i32
    ensures { result ≡ spec.major_of settings.now }
{
    settings.pg_version[0]
}

fn is_timeout(p: &Parse<'_>, path: Option<Span>) -> bool
    ensures { result ≡ spec.is_timeout p.now path }
{
    match path {
        Some(path) => {
            is_one_name(p, path, "lock_timeout") || is_one_name(p, path, "statement_timeout")
        }
        None => false,
    }
}

// The path of the parameter of a SET.
fn parameter(s: &Stmt) -> Option<Span>
    ensures { result ≡ spec.parameter_by s.now.body }
{
    match s.body {
        Body::Setting { name } => name,
        _ => None,
    }
}

// Whether a statement sets a timeout.
#[tactic(auto, unfolding(crate::specs::Known::limits))]
fn limits(p: &Parse<'_>, s: &Stmt) -> bool
    ensures { result ≡ spec.limits p.now s.now }
{
    is_timeout(p, parameter(s))
}

#[tactic(auto, unfolding(crate::specs::Known::is_outside_kind))]
fn is_outside_kind(kind: StmtKind) -> bool
    ensures { result ≡ spec.is_outside_kind kind }
{
    matches!(
        kind,
        StmtKind::AlterDatabase
            | StmtKind::AlterSystem
            | StmtKind::Cluster
            | StmtKind::CreateDatabase
            | StmtKind::CreateTablespace
            | StmtKind::Discard
            | StmtKind::DropDatabase
            | StmtKind::DropIndex
            | StmtKind::DropTablespace
            | StmtKind::Vacuum
    )
}

// Whether a statement runs outside of transactions alone, or a fix may make it so.
fn is_outside_work(s: &Stmt) -> bool
    ensures { result ≡ spec.is_outside_work s.now }
{
    match &s.body {
        Body::Index { .. } | Body::Reindex { .. } => true,
        Body::Alter { actions, .. } => {
            is_outside_kind(s.kind) || has_action(ActionKind::DetachPartition, actions.as_slice())
        }
        _ => is_outside_kind(s.kind),
    }
}

fn has_outside_work(p: &Parse<'_>) -> bool
    ensures { result ≡ list_any spec.is_outside_work p.now.stmts }
{
    p.tree().stmts.as_slice().iter().any(|s| is_outside_work(s))
}

// Goes past statement `i`: whether one up to it sets a timeout.
fn step(
    transaction: &mut OpenTransaction,
    is_limited: bool,
    p: &Parse<'_>,
    s: &Stmt,
    i: usize,
) -> bool
    requires here { s.now ≡ stmt_at p.now i }
    requires limited { is_limited ≡ any_below (λ j. spec.limits p.now (stmt_at p.now j)) i }
    ensures transaction { (assumed : Bool) → transaction.old ≡ is_open assumed p.now i → transaction.new ≡ is_open assumed p.now (i + 1) }
    ensures limited { result ≡ any_below (λ j. spec.limits p.now (stmt_at p.now j)) (i + 1) }
{
    transaction.update(s);
    is_limited || limits(p, s)
}

/// What is known of each statement of a text, in order. The error comes when memory runs out.
pub(crate) fn each_known(
    alloc: Global,
    p: &Parse<'_>,
    settings: &LinterSettings,
) -> Result<Vec<Known>, NoMemory>
    ensures { IfOk result (λ all. AreKnown settings.now p.now all.items) }
{
    let has_outside_work = has_outside_work(p);
    let major = major_of(settings);
    let stmts = p.tree().stmts.as_slice();
    let mut transaction = OpenTransaction::new(is_assumed(p, settings));
    let mut is_limited = false;
    let mut partitioned = SpanSet::new(alloc, SpanKey::Path);
    let mut all = Vec::new(alloc);
    for i in 0..stmts.len() {
        all.push(Known {
            is_inside: transaction.inside(),
            is_limited,
            is_on_partitioned: is_on_partitioned(&partitioned, p, &stmts[i], i),
            has_outside_work,
            major,
        })?;
        is_limited = step(&mut transaction, is_limited, p, &stmts[i], i);
        keep(&mut partitioned, p, &stmts[i], i)?;
    }
    Ok(all)
}
