//! The partitioned tables that earlier statements of a text make.
ghost use Rattle.std.specs.Prelude.{◌≡◌, ◌+◌, ◌||◌, ℕ, List, OnOk};
ghost use Rattle.lint_transaction.specs.SpanSet.{has_span};
ghost use Rattle.lint_transaction.specs.Transaction.{is_path, stmt_at};
ghost use Rattle.lint_transaction.specs.declared.span_key.SpanKey.TheVariants as by;
ghost use Rattle.fix_class.specs.Known as spec;
ghost use Rattle.fix_class.specs.Partitioned.{ArePartitioned};

use crate::word::says;
use lint_ignore::{Body, Parse, Span, Stmt};
use lint_report::NoMemory;
use lint_transaction::{SpanSet, created};

// The table that a statement makes with PARTITION BY.
#[tactic(auto, unfolding(crate::specs::Known::partitioned_table))]
fn partitioned_table(p: &Parse<'_>, s: &Stmt) -> Option<Span>
    ensures { result ≡ spec.partitioned_table p.now s.now }
{
    match created(s) {
        Some(path) if says(p, "partition", s) && says(p, "by", s) => Some(path),
        _ => None,
    }
}

// The table on which a statement builds an index.
fn indexed(s: &Stmt) -> Option<Span>
    ensures { result ≡ spec.indexed_by s.now.body }
{
    match s.body {
        Body::Index { path, .. } => Some(path),
        _ => None,
    }
}

fn is_partitioned(tables: &SpanSet, p: &Parse<'_>, path: Option<Span>) -> bool
    requires { tables.now.key ≡ by.Path }
    ensures { (i : ℕ) → ArePartitioned p.now i tables.now → result ≡ spec.is_partitioned_at p.now i path }
{
    match path {
        Some(path) => tables.contains(p, path),
        None => false,
    }
}

/// Whether statement `i` builds an index on a table that an earlier one makes with PARTITION BY.
pub(crate) fn is_on_partitioned(tables: &SpanSet, p: &Parse<'_>, s: &Stmt, i: usize) -> bool
    requires key { tables.now.key ≡ by.Path }
    requires here { s.now ≡ stmt_at p.now i }
    ensures { ArePartitioned p.now i tables.now → result ≡ spec.is_partitioned_at p.now i (spec.indexed_by (stmt_at p.now i).body) }
{
    is_partitioned(tables, p, indexed(s))
}

fn insert_partitioned(tables: &mut SpanSet, p: &Parse<'_>, s: &Stmt) -> Result<(), NoMemory>
    requires { tables.old.key ≡ by.Path }
    ensures key { tables.new.key ≡ by.Path }
    ensures ok { OnOk result ((names : List (List ℕ)) → has_span p.now tables.new names
        ≡ (is_path p.now (spec.partitioned_table p.now s.now) names || has_span p.now tables.old names)) }
{
    match partitioned_table(p, s) {
        Some(path) => tables.insert(p, path),
        None => Ok(()),
    }
}

/// Goes past statement `i`. The only error is that memory runs out.
pub(crate) fn keep(tables: &mut SpanSet, p: &Parse<'_>, s: &Stmt, i: usize) -> Result<(), NoMemory>
    requires key { tables.old.key ≡ by.Path }
    requires here { s.now ≡ stmt_at p.now i }
    ensures key { tables.new.key ≡ by.Path }
    ensures kept { OnOk result (ArePartitioned p.now i tables.old → ArePartitioned p.now (i + 1) tables.new) }
{
    insert_partitioned(tables, p, s)?;
    Ok(())
}
