//! Expressions whose value is the same for all rows of a statement.

ghost use Rattle.std.specs.Prelude.{◌≡◌};
ghost use Rattle.std.specs.List.{list_all};
ghost use Rattle.pass_constraint.specs.Volatility as spec;

use lint_pass::{Names, is_listed_call, is_one_name};
use sql_tree::{Expr, Parse};

/// Whether an expression is a literal, an array, `current_timestamp`, a call without arguments of one of these functions, or made of
/// such by operators, casts, COLLATE and IS NOT NULL. Then PostgreSQL computes it once for all rows of a statement.
///
/// Functions are found by their full names; one with a schema is none of these. An array counts whatever it holds.
///
/// PostgreSQL manual, "Function Volatility Categories".
#[cycle(is_non_volatile_or_const)]
#[tactic(auto, using(crate::proofs::VolatilityLevels::levels))]
pub fn is_non_volatile_or_const(p: &Parse<'_>, e: &Expr, names: &Names) -> bool
    ensures { result ≡ spec.is_non_volatile_or_const names.now p.now e.now }
{
    match e {
        Expr::Literal | Expr::Array => true,
        Expr::Bin(parts) => are_non_volatile_or_const(p, parts.as_slice(), names),
        Expr::Call { name, no_args } => is_listed_call(p, *name, *no_args, names),
        Expr::Cast(inner) | Expr::Collate(inner) | Expr::IsNotNull(inner) => {
            is_non_volatile_or_const(p, inner.get(), names)
        }
        Expr::Name(path) => is_one_name(p, *path, "current_timestamp"),
        Expr::Other => false,
    }
}

/// Whether all parts of an expression are.
#[cycle(is_non_volatile_or_const)]
fn are_non_volatile_or_const(p: &Parse<'_>, parts: &[Expr], names: &Names) -> bool
    ensures { result ≡ list_all (spec.is_non_volatile_or_const names.now p.now) parts.now }
{
    for part in parts {
        if !is_non_volatile_or_const(p, part, names) {
            return false;
        }
    }
    true
}
