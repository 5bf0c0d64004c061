//! The constraints that an action names.

ghost use Rattle.std.specs.Prelude.{◌≡◌};
ghost use Rattle.pass_history.specs.Constraints as spec;

use lint_pass::{Span, added_constraint, same_action};
use sql_tree::{Action, ActionKind};

/// The number of the name of the constraint that an action adds.
pub(crate) fn added_name(a: &Action) -> Option<u32>
    ensures { result ≡ spec.added_name a.now }
{
    match added_constraint(a) {
        Some(constraint) => constraint.name,
        None => None,
    }
}

/// The number of the name of the constraint that an action drops.
pub(crate) fn dropped_name(a: &Action) -> Option<u32>
    ensures { result ≡ spec.dropped_name a.now }
{
    if same_action(a.kind, ActionKind::DropConstraint) {
        a.name
    } else {
        None
    }
}

/// The number of the name of the constraint that an action validates.
pub(crate) fn validated_name(a: &Action) -> Option<u32>
    ensures { result ≡ spec.validated_name a.now }
{
    match a.path {
        Some(path) if same_action(a.kind, ActionKind::ValidateConstraint) => Some(path.last),
        _ => None,
    }
}

/// The span of one token.
pub(crate) fn one_token(number: u32) -> Span
    ensures first { result.first ≡ number }
    ensures last { result.last ≡ number }
{
    Span {
        first: number,
        last: number,
    }
}
