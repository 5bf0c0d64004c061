//! What an ALTER TABLE alters.

ghost use Rattle.std.specs.Prelude.{◌≡◌};
ghost use Rattle.lint_node.specs.Altered as spec;
ghost use Rattle.lint_node.specs.Altered.{path_in};
ghost use Rattle.lint_node.specs.Parts.{table_actions};

use crate::parts::actions_of;
use crate::same::same_kind;
use sql_tree::{Action, Body, Span, Stmt, StmtKind};

/// The actions of an ALTER TABLE; none of any other statement.
pub fn table_actions(s: &Stmt) -> &[Action]
    ensures { result.now ≡ table_actions s.now }
{
    if same_kind(s.kind, StmtKind::AlterTable) {
        actions_of(s)
    } else {
        &[]
    }
}

/// The path of the object that an ALTER statement alters; none of any other statement.
pub fn path_in(body: &Body) -> Option<Span>
    ensures { result ≡ path_in body.now }
{
    match body {
        Body::Alter { path, .. } => *path,
        _ => None,
    }
}

/// The path of the table that an ALTER TABLE alters; none of any other statement.
pub fn altered_path(s: &Stmt) -> Option<Span>
    ensures { result ≡ spec.altered_path s.now }
{
    if same_kind(s.kind, StmtKind::AlterTable) {
        path_in(&s.body)
    } else {
        None
    }
}
