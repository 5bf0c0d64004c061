//! Plain texts.

ghost use Rattle.std.specs.Prelude.{◌≡◌};
ghost use Rattle.std.specs.List.{list_any};
ghost use Rattle.lint_pass.specs.lint_node.Parts as node;
ghost use Rattle.lock_machine.specs.Plain as spec;
ghost use Rattle.lock_machine.specs.Plain.{plain};

use crate::array::has_array;
use crate::search_path::{sets_schema, sets_search_path};
use lint_pass::{new_constraints, same_constraint, table_actions};
use sql_tree::{Action, Body, ConKind, Constraint, Expr, Parse, Stmt, StmtKind};

fn is_unplain_kind(kind: StmtKind) -> bool
    ensures { result ≡ spec.is_unplain_kind kind }
{
    matches!(
        kind,
        StmtKind::SavepointCreate
            | StmtKind::ReleaseSavepoint
            | StmtKind::PrepareTransaction
            | StmtKind::Reset
            | StmtKind::Discard
    )
}

/// Whether a statement is COMMIT PREPARED, ROLLBACK PREPARED or ROLLBACK TO.
fn is_unplain_end(s: &Stmt) -> bool
    ensures { result ≡ spec.is_unplain_end s.now.body }
{
    match s.body {
        Body::End { plain, .. } => !plain,
        _ => false,
    }
}

/// Whether a statement is a REINDEX with a value of its option CONCURRENTLY.
fn is_valued_reindex(s: &Stmt) -> bool
    ensures { result ≡ spec.is_valued_reindex s.now.body }
{
    match s.body {
        Body::Reindex { valued, .. } => valued,
        _ => false,
    }
}

fn has_array_in(value: &Option<Expr>) -> bool
    ensures { result ≡ spec.has_array_in value.now }
{
    match value {
        Some(e) => has_array(e),
        None => false,
    }
}

fn is_array_default(c: &Constraint) -> bool
    ensures { result ≡ spec.is_array_default c.now }
{
    same_constraint(c.kind, ConKind::Default) && has_array_in(&c.expr)
}

fn adds_array(a: &Action) -> bool
    ensures { result ≡ spec.adds_array a.now }
{
    new_constraints(a).iter().any(|c| is_array_default(c))
}

/// Whether an ALTER TABLE adds a column whose default has an array.
fn any_adds_array(s: &Stmt) -> bool
    ensures { result ≡ list_any spec.adds_array (node.table_actions s.now) }
{
    table_actions(s).iter().any(|a| adds_array(a))
}

fn is_unplain(p: &Parse<'_>, s: &Stmt) -> bool
    ensures { result ≡ spec.is_unplain p.now s.now }
{
    is_unplain_kind(s.kind)
        || is_unplain_end(s)
        || sets_search_path(p, s)
        || sets_schema(p, s)
        || is_valued_reindex(s)
        || any_adds_array(s)
}

fn any_unplain(p: &Parse<'_>, stmts: &[Stmt]) -> bool
    ensures { result ≡ list_any (spec.is_unplain p.now) stmts.now }
{
    for s in stmts {
        if is_unplain(p, s) {
            return true;
        }
    }
    false
}

/// Whether a text is plain, so that [`lock_work`](crate::lock_work) and the rules follow what it does:
///
/// - no savepoint, no prepared transaction, and no ROLLBACK TO: each undoes or ends a part of a transaction only;
/// - no SET search_path, SET SCHEMA, RESET or DISCARD: after them a name may be that of another table;
/// - no column that ALTER TABLE adds with an array in its DEFAULT, which may hold a volatile call, and no REINDEX whose option
///   CONCURRENTLY has a value: no rule reports them.
///
/// It takes no memory.
pub fn is_plain(file: &Parse<'_>) -> bool
    ensures { result ≡ plain file.now }
{
    !any_unplain(file, file.tree().stmts.as_slice())
}
