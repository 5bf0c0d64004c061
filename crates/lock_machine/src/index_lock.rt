//! Work on indexes.

ghost use Rattle.std.specs.Prelude.{◌≡◌};
ghost use Rattle.lock_machine.specs.Works as spec;

use lint_lock::LockKind;
use lint_pass::{Span, is_system, same_kind};
use sql_tree::{Body, ReindexTarget, Stmt, StmtKind};

/// The lock, where there is work.
pub(crate) fn lock_if(is_work: bool, lock: LockKind) -> Option<LockKind>
    ensures { result ≡ spec.lock_if is_work lock }
{
    if is_work { Some(lock) } else { None }
}

/// The lock of a CREATE INDEX or DROP INDEX without CONCURRENTLY, and of a REINDEX that is not concurrent or gives its option
/// CONCURRENTLY a value.
pub(crate) fn index_lock(s: &Stmt) -> Option<LockKind>
    ensures { result ≡ spec.index_lock s.now }
{
    match &s.body {
        Body::Index { concurrently, .. } => lock_if(concurrently.is_none(), LockKind::Share),
        Body::Drop { concurrently, .. } => lock_if(
            same_kind(s.kind, StmtKind::DropIndex) && !*concurrently,
            LockKind::AccessExclusive,
        ),
        Body::Reindex {
            target,
            concurrent,
            valued,
            path,
            ..
        } => lock_if(
            (!*concurrent || *valued) && !is_system(*target) && path.is_some(),
            LockKind::AccessExclusive,
        ),
        _ => None,
    }
}

fn rebuilt_table(target: ReindexTarget, path: Option<Span>) -> Option<Span>
    ensures { result ≡ spec.rebuilt_table target path }
{
    match target {
        ReindexTarget::Table => path,
        _ => None,
    }
}

/// The path of the table that a statement on indexes names.
pub(crate) fn indexed_table(s: &Stmt) -> Option<Span>
    ensures { result ≡ spec.indexed_table s.now.body }
{
    match &s.body {
        Body::Index { path, .. } => Some(*path),
        Body::Reindex { target, path, .. } => rebuilt_table(*target, *path),
        _ => None,
    }
}
