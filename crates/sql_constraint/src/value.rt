//! The expression of a constraint.

ghost use Rattle.std.specs.Prelude.{◌≡◌, IfOk};
ghost use Rattle.sql_tree.specs.Constraint as spec;

use sql_expr::read_expression;
use sql_form::{Mark, before_after_head, inside_list, span_of};
use sql_tree::{ConKind, Expr, NoMemory, Span, Terminal};
use std::alloc::Global;

/// The expression of a DEFAULT, by what follows that word. Its first terminal belongs to it, whatever it is.
#[tactic(auto, unfolding(sql_tree::specs::Constraint::default_value))]
fn default_value(rest: &[Terminal]) -> &[Terminal]
    ensures { result.now ≡ spec.default_value rest.now }
{
    let len = before_after_head(Mark::ValueEnd, 1, None, rest);
    &rest[..len]
}

/// What the expression of a constraint is, by what follows the words of its kind; nothing, where it has none.
#[tactic(auto, unfolding(sql_tree::specs::Constraint::value_in))]
pub(crate) fn value_in(kind: ConKind, rest: &[Terminal]) -> &[Terminal]
    ensures { result.now ≡ spec.value_in kind rest.now }
{
    match kind {
        ConKind::Check => inside_list(rest),
        ConKind::Default => default_value(rest),
        _ => &[],
    }
}

/// The expression that these terminals are; `Ok(None)` where there are none.
pub(crate) fn value_of(alloc: Global, value: &[Terminal]) -> Result<Option<Expr>, NoMemory>
    ensures { IfOk result (λ e. e ≡ spec.value_of value.now) }
{
    if value.is_empty() {
        return Ok(None);
    }
    let expr = read_expression(alloc, value)?;
    Ok(Some(expr))
}

pub(crate) fn value_span(value: &[Terminal]) -> Option<Span>
    ensures { result ≡ spec.value_span value.now }
{
    if value.is_empty() {
        None
    } else {
        Some(span_of(value))
    }
}
