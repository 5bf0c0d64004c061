//! What one statement does to a transaction, and the table that it creates.

ghost use Rattle.std.specs.Prelude.{◌≡◌};
ghost use Rattle.lint_transaction.specs.Transaction as spec;

use sql_tree::{Body, Span, Stmt, StmtKind};

/// Whether the statement begins a transaction.
pub fn begins(s: &Stmt) -> bool
    ensures { result ≡ spec.begins s.now }
{
    match s.kind {
        StmtKind::Begin => true,
        _ => false,
    }
}

/// Whether the statement is a plain COMMIT or ROLLBACK.
pub fn ends(s: &Stmt) -> bool
    ensures { result ≡ spec.ends s.now }
{
    match s.body {
        Body::End { plain, .. } => plain,
        _ => false,
    }
}

/// Whether the statement ends a transaction and begins the next one at once.
pub fn chains(s: &Stmt) -> bool
    ensures { result ≡ spec.chains s.now }
{
    match s.body {
        Body::End { plain, chain } => plain && chain,
        _ => false,
    }
}

fn is_foreign_kind(kind: StmtKind) -> bool
    ensures { result ≡ spec.is_foreign_kind kind }
{
    match kind {
        StmtKind::CreateForeignTable => true,
        _ => false,
    }
}
/// The path of the table that the statement creates, which is not a foreign one.
pub fn created(s: &Stmt) -> Option<Span>
    ensures { result ≡ spec.created s.now }
{
    match s.body {
        Body::Table { path, .. } => {
            if is_foreign_kind(s.kind) {
                None
            } else {
                Some(path)
            }
        }
        Body::Into { path, .. } => Some(path),
        _ => None,
    }
}
