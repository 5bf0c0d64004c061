//! Whether a statement may take long.

ghost use Rattle.std.specs.Prelude.{◌≡◌, not};
ghost use Rattle.std.specs.List.{list_any};
ghost use Rattle.lint_lock.specs.Slow as spec;

use sql_tree::{Body, Column, ConKind, Elem, Parse, Stmt, StmtKind};

/// Whether statements of this kind are never slow.
fn is_quick_kind(kind: StmtKind) -> bool
    ensures { result ≡ not (spec.is_slow_kind kind) }
{
    match kind {
        StmtKind::Analyze | StmtKind::Begin | StmtKind::Call | StmtKind::Checkpoint => true,
        StmtKind::Close | StmtKind::Commit | StmtKind::Copy | StmtKind::Deallocate => true,
        StmtKind::Declare | StmtKind::Delete | StmtKind::Discard | StmtKind::Do => true,
        StmtKind::Empty | StmtKind::Execute | StmtKind::Explain | StmtKind::Fetch => true,
        StmtKind::Grant | StmtKind::Insert | StmtKind::Listen | StmtKind::Merge => true,
        StmtKind::Move | StmtKind::Notify | StmtKind::ParenSelect | StmtKind::Prepare => true,
        StmtKind::PrepareTransaction
        | StmtKind::Reassign
        | StmtKind::ReleaseSavepoint
        | StmtKind::Repack => true,
        StmtKind::Reset | StmtKind::ResetRole | StmtKind::ResetSessionAuth | StmtKind::Revoke =>
            true,
        StmtKind::Rollback
        | StmtKind::SavepointCreate
        | StmtKind::SecurityLabel
        | StmtKind::Select => true,
        StmtKind::Set | StmtKind::SetConstraints | StmtKind::SetRole | StmtKind::SetSessionAuth =>
            true,
        StmtKind::SetTransaction | StmtKind::Show | StmtKind::Table | StmtKind::Unlisten => true,
        StmtKind::Update | StmtKind::Values => true,
        _ => false,
    }
}

fn is_references_kind(kind: ConKind) -> bool
    ensures { result ≡ spec.is_references_kind kind }
{
    matches!(kind, ConKind::References)
}

/// Whether a column has a REFERENCES constraint.
fn has_references(column: &Column) -> bool
    ensures { result ≡ list_any spec.is_reference column.now.constraints }
{
    for constraint in column.constraints.as_slice() {
        if is_references_kind(constraint.kind) {
            return true;
        }
    }
    false
}

fn refers(elem: &Elem) -> bool
    ensures { result ≡ spec.refers elem.now }
{
    match elem {
        Elem::Constraint(constraint) => matches!(constraint.kind, ConKind::ForeignKey),
        Elem::Column(column) => has_references(column),
        _ => false,
    }
}

/// Whether some element refers to another table.
fn has_reference(elems: &[Elem]) -> bool
    ensures { result ≡ list_any spec.refers elems.now }
{
    for elem in elems {
        if refers(elem) {
            return true;
        }
    }
    false
}

/// Whether a statement may take long: CREATE TABLE only where an element is a FOREIGN KEY constraint or a column with
/// REFERENCES, any other ALTER, CREATE or DROP always, and SELECT INTO, CLUSTER, COMMENT ON, IMPORT FOREIGN SCHEMA, LOAD,
/// LOCK, REFRESH, REINDEX, TRUNCATE and VACUUM.
pub fn possibly_slow_stmt(_p: &Parse<'_>, s: &Stmt) -> bool
    ensures { result ≡ spec.is_slow s.now }
{
    match s.kind {
        StmtKind::CreateTable => match &s.body {
            Body::Table { elems, .. } => has_reference(elems.as_slice()),
            _ => false,
        },
        kind => !is_quick_kind(kind),
    }
}
