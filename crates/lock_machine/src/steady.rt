//! Expressions that give one value for all rows, and hold no array.

ghost use Rattle.std.specs.Prelude.{◌≡◌};
ghost use Rattle.std.specs.List.{list_all};
ghost use Rattle.lock_machine.specs.Steady as spec;

use lint_pass::{Names, is_listed_call, is_one_name};
use sql_tree::{Expr, Parse};

/// Whether an expression is a literal, `current_timestamp`, a call without arguments of one of these functions, or made of such by
/// operators, casts, COLLATE and IS NOT NULL. Then a column with this default is added without a rewrite from version 11 on.
///
/// An array is not steady: it may hold a volatile call, which the tree does not show.
#[cycle(is_steady)]
#[tactic(auto, using(crate::proofs::SteadyLevels::levels))]
pub(crate) fn is_steady(p: &Parse<'_>, e: &Expr, names: &Names) -> bool
    ensures { result ≡ spec.is_steady names.now p.now e.now }
{
    match e {
        Expr::Literal => true,
        Expr::Bin(parts) => are_steady(p, parts.as_slice(), names),
        Expr::Call { name, no_args } => is_listed_call(p, *name, *no_args, names),
        Expr::Cast(inner) | Expr::Collate(inner) | Expr::IsNotNull(inner) => {
            is_steady(p, inner.get(), names)
        }
        Expr::Name(path) => is_one_name(p, *path, "current_timestamp"),
        Expr::Array | Expr::Other => false,
    }
}

/// Whether all parts of an expression are.
#[cycle(is_steady)]
fn are_steady(p: &Parse<'_>, parts: &[Expr], names: &Names) -> bool
    ensures { result ≡ list_all (spec.is_steady names.now p.now) parts.now }
{
    for part in parts {
        if !is_steady(p, part, names) {
            return false;
        }
    }
    true
}
