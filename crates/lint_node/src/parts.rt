//! The parts of a statement.

ghost use Rattle.std.specs.Prelude.{◌≡◌, option_copied};
ghost use Rattle.lint_node.specs.Parts as spec;
ghost use Rattle.lint_node.specs.Parts.{has_action, new_constraints, replaces_by};
ghost use Rattle.sql_tree.specs.Nodes.{actions_in};

use crate::same::{same_action, same_kind};
use sql_tree::{Action, ActionKind, Body, Column, Constraint, Elem, Stmt, StmtKind};

/// The actions of an ALTER statement; none of any other.
pub fn actions_of(s: &Stmt) -> &[Action]
    ensures { result.now ≡ actions_in s.now.body }
{
    match &s.body {
        Body::Alter { actions, .. } => actions.as_slice(),
        _ => &[],
    }
}

/// Whether a CREATE statement has OR REPLACE.
#[inline(never)]
pub fn replaces(s: &Stmt) -> bool
    ensures { result ≡ replaces_by s.now.body }
{
    match &s.body {
        Body::View(view) => view.get().replace,
        Body::Code { replace } => *replace,
        _ => false,
    }
}

/// Whether some action is of the kind.
#[inline(never)]
pub fn has_action(kind: ActionKind, actions: &[Action]) -> bool
    ensures { result ≡ has_action kind actions.now }
{
    actions.iter().any(|a| same_action(a.kind, kind))
}

/// The column that an ADD COLUMN adds; none of any other action.
pub fn added_column(a: &Action) -> Option<&Column>
    ensures { option_copied result ≡ spec.added_column a.now }
{
    if same_action(a.kind, ActionKind::AddColumn) {
        a.column.as_ref()
    } else {
        None
    }
}

/// The constraint that an ADD of a constraint adds; none of any other action.
pub fn added_constraint(a: &Action) -> Option<&Constraint>
    ensures { option_copied result ≡ spec.added_constraint a.now }
{
    if same_action(a.kind, ActionKind::AddConstraint) {
        a.constraint.as_ref()
    } else {
        None
    }
}

/// Whether the table is scanned when this constraint is added.
pub fn is_checked(constraint: Option<&Constraint>) -> bool
    ensures { result ≡ spec.is_checked (option_copied constraint.entry) }
{
    match constraint {
        Some(constraint) => !constraint.not_valid && !constraint.by_index,
        None => false,
    }
}

/// The constraints of the column that an ADD COLUMN adds; none of any other action.
pub fn new_constraints(a: &Action) -> &[Constraint]
    ensures { result.now ≡ new_constraints a.now }
{
    match added_column(a) {
        Some(column) => column.constraints.as_slice(),
        None => &[],
    }
}

/// The elements of a table's list, of a CREATE TABLE, a CREATE TABLE AS or a CREATE FOREIGN TABLE; none of any other
/// statement.
pub fn table_elements(s: &Stmt) -> &[Elem]
    ensures { result.now ≡ spec.elements_of s.now }
{
    match &s.body {
        Body::Table { elems, .. } => elems.as_slice(),
        _ => &[],
    }
}

/// The elements of the list of a CREATE TABLE; none of any other statement.
pub fn created_elements(s: &Stmt) -> &[Elem]
    ensures { result.now ≡ spec.created_elements s.now }
{
    if same_kind(s.kind, StmtKind::CreateTable) {
        table_elements(s)
    } else {
        &[]
    }
}
