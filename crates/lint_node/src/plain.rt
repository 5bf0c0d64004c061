//! What blocks writes since it is not done CONCURRENTLY.

ghost use Rattle.std.specs.Prelude.{◌≡◌};
ghost use Rattle.lint_node.specs.Plain as spec;

use crate::same::{same_action, same_kind};
use sql_tree::{Action, ActionKind, Body, ReindexTarget, Stmt, StmtKind};

fn drops_plainly(body: &Body) -> bool
    ensures { result ≡ spec.drops_plainly body.now }
{
    match body {
        Body::Drop { concurrently, .. } => !*concurrently,
        _ => false,
    }
}

/// Whether a statement is a DROP INDEX without CONCURRENTLY.
pub fn is_plain_drop(s: &Stmt) -> bool
    ensures { result ≡ spec.is_plain_drop s.now }
{
    same_kind(s.kind, StmtKind::DropIndex) && drops_plainly(&s.body)
}

/// Whether a REINDEX is of the system catalogs, which can't be done CONCURRENTLY.
pub fn is_system(target: ReindexTarget) -> bool
    ensures { result ≡ spec.is_system target }
{
    matches!(target, ReindexTarget::System)
}

/// Whether a statement is a REINDEX that is not concurrent, though it could be: REINDEX SYSTEM could not.
pub fn is_plain_reindex(s: &Stmt) -> bool
    ensures { result ≡ spec.is_plain_reindex s.now }
{
    match &s.body {
        Body::Reindex {
            target,
            concurrent,
            ..
        } => !*concurrent && !is_system(*target),
        _ => false,
    }
}

/// Whether an action is a DETACH PARTITION with neither CONCURRENTLY nor FINALIZE.
pub fn is_plain_detach(a: &Action) -> bool
    ensures { result ≡ spec.is_plain_detach a.now }
{
    same_action(a.kind, ActionKind::DetachPartition) && a.word.is_none()
}
