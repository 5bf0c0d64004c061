//! What is known of a statement by the settings and by the statements before it, and by the ones that look at its index later.

ghost use Rattle.std.specs.Prelude.{◌≡◌, ℕ, IfOk};
ghost use Rattle.lint_transaction.specs.Transaction.{stmt_at};
ghost use Rattle.hazard_find.specs.Earlier.{is_assumed};
ghost use Rattle.hazard_find.specs.Guards as later;
ghost use Rattle.hazard_find.specs.Here as spec;
ghost use Rattle.hazard_find.specs.Walk.{IsKept};

use crate::earlier::{Earlier, refreshed_view};
use crate::guards::{Look, is_guarded};
use hazard_base::{LinterSettings, NoMemory};
use lint_ignore::{Body, Parse, Span, Stmt, has_disable_assume_in_transaction};
use lint_node::altered_path;

/// The first version of PostgreSQL that has REPACK.
const FIRST_VERSION: i32 = 19;

/// What is known of a statement.
#[derive(Clone, Copy)]
pub(crate) struct Here {
    /// A transaction is open.
    pub is_inside: bool,
    /// The text has more than one statement.
    pub has_more: bool,
    /// PostgreSQL has REPACK.
    pub has_repack: bool,
    /// Others may use the table that the statement names.
    pub is_old: bool,
    /// An earlier statement drops the index that it names, if it is there.
    pub is_dropped_index: bool,
    /// A later statement looks whether that index is valid.
    pub is_guarded: bool,
    /// An earlier statement makes the view that it fills anew.
    pub is_made_view: bool,
    /// A timeout that the text set can cancel it.
    pub is_under_timeout: bool,
}

/// Whether a transaction is open before the first statement.
pub(crate) fn is_assumed(p: &Parse<'_>, set: &LinterSettings) -> bool
    ensures { result ≡ is_assumed set.now p.now }
{
    set.assume_in_transaction && !has_disable_assume_in_transaction(p)
}

/// The table that a statement names.
#[tactic(auto, unfolding(crate::specs::Here::table_of))]
fn table_of(s: &Stmt) -> Option<Span>
    ensures { result ≡ spec.table_of s.now }
{
    match s.body {
        Body::Cluster { table, .. } => table,
        _ => altered_path(s),
    }
}

/// A name, as a path of its own.
fn one_name(number: Option<u32>) -> Option<Span>
    ensures { result ≡ spec.one_name number }
{
    match number {
        Some(number) => Some(Span {
            first: number,
            last: number,
        }),
        None => None,
    }
}

/// The index that a CREATE INDEX names.
#[tactic(auto, unfolding(crate::specs::Here::index_of))]
fn index_of(s: &Stmt) -> Option<Span>
    ensures { result ≡ spec.index_of s.now }
{
    match s.body {
        Body::Index { name, .. } => one_name(name),
        _ => None,
    }
}

fn has_repack(set: &LinterSettings) -> bool
    ensures { result ≡ spec.has_repack set.now }
{
    FIRST_VERSION <= set.pg_version[0]
}

fn has_more(p: &Parse<'_>) -> bool
    ensures { result ≡ spec.has_more p.now }
{
    1 < p.tree().stmts.len()
}

/// What is known of statement `i`. The only error is that memory runs out.
#[tactic(auto, unfolding(crate::specs::Here::known_at))]
pub(crate) fn known_at<'t>(
    earlier: &Earlier<'t>,
    looks: &[Look],
    p: &Parse<'t>,
    set: &LinterSettings,
    i: usize,
    s: &Stmt,
) -> Result<Here, NoMemory>
    requires statement { s.now ≡ stmt_at p.now i }
    requires looks { looks.now ≡ later.looks p.now }
    ensures { IfOk result (λ here. IsKept p.now (is_assumed set.now p.now) i earlier.now → here ≡ spec.known_at set.now p.now i) }
{
    Ok(Here {
        is_inside: earlier.is_inside(),
        has_more: has_more(p),
        has_repack: has_repack(set),
        is_old: earlier.is_old(p, table_of(s))?,
        is_dropped_index: earlier.is_dropped_index(p, index_of(s)),
        is_guarded: is_guarded(p, looks, i, index_of(s)),
        is_made_view: earlier.is_made_view(p, refreshed_view(p, s)),
        is_under_timeout: earlier.is_under_timeout(),
    })
}
