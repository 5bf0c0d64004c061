//! Arrays in expressions.

ghost use Rattle.std.specs.Prelude.{◌≡◌};
ghost use Rattle.std.specs.List.{list_any};
ghost use Rattle.lock_machine.specs.Plain as spec;

use sql_tree::Expr;

/// Whether an array is in the expression, at any depth.
#[cycle(has_array)]
#[tactic(auto, using(crate::proofs::ArrayLevels::levels))]
pub(crate) fn has_array(e: &Expr) -> bool
    ensures { result ≡ spec.has_array e.now }
{
    match e {
        Expr::Array => true,
        Expr::Bin(parts) => any_has_array(parts.as_slice()),
        Expr::Cast(inner) | Expr::Collate(inner) | Expr::IsNotNull(inner) => has_array(inner.get()),
        Expr::Literal | Expr::Call { .. } | Expr::Name(_) | Expr::Other => false,
    }
}

#[cycle(has_array)]
fn any_has_array(parts: &[Expr]) -> bool
    ensures { result ≡ list_any spec.has_array parts.now }
{
    for part in parts {
        if has_array(part) {
            return true;
        }
    }
    false
}
