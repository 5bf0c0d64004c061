//! Columns that an ALTER TABLE adds.

ghost use Rattle.std.specs.Prelude.{◌≡◌, ◌<◌, length};
ghost use Rattle.hazard_find.specs.Columns as spec;

use crate::look::{after, after_optional, after_words, token_from};
use lint_ignore::{Action, ColType, ConKind, Constraint, Keyword, Parse, Span};
use lint_node::{added_type, same_constraint};
use lint_transaction::is_one_name;

/// Whether NOT ENFORCED follows a bracket.
fn is_excused_after(p: &Parse<'_>, close: usize, end: usize) -> bool
    requires { close < length p.now.toks }
    ensures { result ≡ spec.is_excused_after p.now end close }
{
    let next = after_optional(p, &[Keyword::NO, Keyword::INHERIT], after(p, close), end);
    after_words(p, &[Keyword::NOT, Keyword::ENFORCED], next, end).is_some()
}

/// Whether a constraint with this condition is not enforced.
#[tactic(auto, unfolding(crate::specs::Columns::is_excused))]
fn is_excused(p: &Parse<'_>, condition: Option<Span>, end: usize) -> bool
    ensures { result ≡ spec.is_excused p.now end condition }
{
    match condition {
        Some(condition) => match token_from(p, condition.last as usize + 1, end) {
            Some(close) => is_excused_after(p, close, end),
            None => false,
        },
        None => false,
    }
}

/// Whether a constraint is a CHECK that is enforced.
#[tactic(auto, unfolding(crate::specs::Columns::is_scanned))]
pub(crate) fn is_scanned(p: &Parse<'_>, c: &Constraint) -> bool
    ensures { result ≡ spec.is_scanned p.now c.now }
{
    same_constraint(c.kind, ConKind::Check) && !is_excused(p, c.expr_span, c.last as usize + 1)
}

fn is_json(p: &Parse<'_>, t: &ColType) -> bool
    ensures { result ≡ spec.is_json p.now t.now }
{
    !t.array && is_one_name(p, t.inner, "json")
}

/// The type json of the column that an action adds.
#[tactic(auto, unfolding(crate::specs::Columns::added_json))]
pub(crate) fn added_json(p: &Parse<'_>, a: &Action) -> Option<Span>
    ensures { result ≡ spec.added_json p.now a.now }
{
    match added_type(a) {
        Some(t) if is_json(p, &t) => Some(t.whole),
        _ => None,
    }
}
