//! Work of the actions of ALTER TABLE.

ghost use Rattle.std.specs.Prelude.{◌≡◌};
ghost use Rattle.std.specs.List.{list_any};
ghost use Rattle.lint_lock.specs.Lock as lock;
ghost use Rattle.sql_tree.specs.declared.kinds.ActionKind.TheVariants as action;
ghost use Rattle.lock_machine.specs.Works as spec;

use crate::index_lock::lock_if;
use crate::steady::is_steady;
use lint_lock::LockKind;
use lint_pass::{LinterSettings, is_checked, new_constraints};
use sql_tree::{Action, ActionKind, ConKind, Constraint, Expr, Parse, PieceKind};

/// Whether the version adds no column with a default without a rewrite.
fn is_early(set: &LinterSettings) -> bool
    ensures { result ≡ spec.is_early set.now }
{
    set.pg_version[0] < 11
}

fn is_steady_value(p: &Parse<'_>, set: &LinterSettings, value: &Option<Expr>) -> bool
    ensures { result ≡ spec.is_steady_value set.now p.now value.now }
{
    match value {
        Some(e) => is_steady(p, e, &set.non_volatile),
        None => false,
    }
}

/// Whether a column with this constraint is added by a look at each row, or by writing it.
fn reads_rows(p: &Parse<'_>, set: &LinterSettings, c: &Constraint) -> bool
    ensures { result ≡ spec.reads_rows set.now p.now c.now }
{
    match c.kind {
        ConKind::Unique | ConKind::PrimaryKey => true,
        ConKind::References | ConKind::Generated => true,
        ConKind::Default => is_early(set) || !is_steady_value(p, set, &c.expr),
        _ => false,
    }
}

fn any_reads_rows(p: &Parse<'_>, set: &LinterSettings, constraints: &[Constraint]) -> bool
    ensures { result ≡ list_any (spec.reads_rows set.now p.now) constraints.now }
{
    for c in constraints {
        if reads_rows(p, set, c) {
            return true;
        }
    }
    false
}

fn is_type_kind(kind: PieceKind) -> bool
    ensures { result ≡ spec.is_type_kind kind }
{
    matches!(kind, PieceKind::SetType)
}

fn changes_type(a: &Action) -> bool
    ensures { result ≡ spec.changes_type a.now.pieces }
{
    let pieces = a.pieces.as_slice();
    pieces.iter().any(|piece| is_type_kind(piece.kind))
}

fn is_foreign_key(a: &Action) -> bool
    ensures { result ≡ lock.is_foreign_key a.now.constraint }
{
    match &a.constraint {
        Some(c) => matches!(c.kind, ConKind::ForeignKey),
        None => false,
    }
}

/// The lock under which a constraint is added: for a foreign key the other table goes on being read.
fn constraint_lock(a: &Action) -> LockKind
    ensures { result ≡ lock.lock_by_action action.AddConstraint a.now }
{
    if is_foreign_key(a) {
        LockKind::ShareRowExclusive
    } else {
        LockKind::AccessExclusive
    }
}

/// The lock of an action of ALTER TABLE, where the action is work: all but a foreign key block reads too.
#[tactic(auto, using(crate::proofs::ActionLaws::type_lock))]
pub(crate) fn action_lock(p: &Parse<'_>, set: &LinterSettings, a: &Action) -> Option<LockKind>
    ensures { result ≡ spec.action_lock set.now p.now a.now }
{
    match a.kind {
        ActionKind::AddConstraint => lock_if(is_checked(a.constraint.as_ref()), constraint_lock(a)),
        ActionKind::AddColumn => lock_if(
            any_reads_rows(p, set, new_constraints(a)),
            LockKind::AccessExclusive,
        ),
        ActionKind::AlterColumn => lock_if(changes_type(a), LockKind::AccessExclusive),
        ActionKind::DetachPartition => lock_if(a.word.is_none(), LockKind::AccessExclusive),
        _ => None,
    }
}
