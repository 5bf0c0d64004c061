//! Constraints that say that a column has no null.

ghost use Rattle.std.specs.Prelude.{◌≡◌};
ghost use Rattle.pass_history.specs.AddingNotNullField as spec;

use lint_pass::{added_constraint, same_constraint};
use sql_tree::{Action, ConKind, Constraint, Expr};

/// What a CHECK that was added as not valid says, that a column of a table has no null: the numbers of the names of the
/// constraint, the table and the column.
#[derive(Clone, Copy, Debug)]
pub struct NotNullCheck {
    pub(crate) name: u32,
    pub(crate) table: u32,
    pub(crate) column: u32,
}

/// The name that an expression is, without a schema or a table.
#[tactic(auto, unfolding(crate::specs::AddingNotNullField::lone_name))]
fn lone_name(e: &Expr) -> Option<u32>
    ensures { result ≡ spec.lone_name e.now }
{
    match e {
        Expr::Name(path) if path.first == path.last => Some(path.first),
        _ => None,
    }
}

/// The column of the condition COLUMN IS NOT NULL.
#[tactic(auto, unfolding(crate::specs::AddingNotNullField::not_null_column))]
fn not_null_column(e: &Expr) -> Option<u32>
    ensures { result ≡ spec.not_null_column e.now }
{
    match e {
        Expr::IsNotNull(inner) => lone_name(inner.get()),
        _ => None,
    }
}

fn check_from(table: u32, k: &Constraint) -> Option<NotNullCheck>
    ensures { result ≡ spec.check_from table k.now }
{
    let name = k.name?;
    let column = not_null_column(k.expr.as_ref()?)?;
    Some(NotNullCheck {
        name,
        table,
        column,
    })
}

/// What a not valid CHECK with a name says of a column of the table.
fn check_by(table: u32, k: &Constraint) -> Option<NotNullCheck>
    ensures { result ≡ spec.check_by table k.now }
{
    if same_constraint(k.kind, ConKind::Check) && k.not_valid {
        check_from(table, k)
    } else {
        None
    }
}

/// What the constraint that an action adds says of a column of the table.
pub(crate) fn check_of(table: u32, a: &Action) -> Option<NotNullCheck>
    ensures { result ≡ spec.check_of table a.now }
{
    match added_constraint(a) {
        Some(constraint) => check_by(table, constraint),
        None => None,
    }
}
