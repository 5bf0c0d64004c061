//! Timeouts that a text sets for its session.

ghost use Rattle.std.specs.Prelude.{◌≡◌, ◌<◌, ◌+◌, ◌&&◌, ◌||◌, not, length, IfSome};
ghost use Rattle.lint_ignore.specs.sql_tree.Range.{token_at};
ghost use Rattle.hazard_find.specs.Look.{text_at};
ghost use Rattle.hazard_find.specs.Timeouts as spec;

use crate::look::{after, is_word_at, path_after, says, token_from};
use lint_ignore::{Body, Keyword, Parse, Span, Stmt, StmtKind, TokKind};
use lint_node::same_kind;
use lint_transaction::is_one_name;

fn is_parameter(p: &Parse<'_>, name: &str, path: Option<Span>) -> bool
    ensures { result ≡ spec.is_parameter p.now name.now path }
{
    match path {
        Some(path) => is_one_name(p, path, name),
        None => false,
    }
}

/// The path of the parameter of a SET.
fn parameter(s: &Stmt) -> Option<Span>
    ensures { result ≡ spec.parameter_by s.now.body }
{
    match s.body {
        Body::Setting { name } => name,
        _ => None,
    }
}

/// Whether a statement is a SET of this parameter for the session.
#[tactic(auto, unfolding(crate::specs::Timeouts::sets))]
fn sets(p: &Parse<'_>, name: &str, s: &Stmt) -> bool
    ensures { result ≡ spec.sets p.now name.now s.now }
{
    is_parameter(p, name, parameter(s)) && !says(p, &[Keyword::SET, Keyword::LOCAL], s)
}

fn is_literal(kind: TokKind) -> bool
    ensures { result ≡ spec.is_literal kind }
{
    matches!(kind, TokKind::Str | TokKind::Number)
}

#[tactic(auto, unfolding(crate::specs::Timeouts::is_bare_zero))]
fn is_bare_zero(text: &str) -> bool
    ensures { result ≡ spec.is_bare_zero text.now }
{
    text == "0" || text == "'0'" || text == "'0ms'"
}

#[tactic(auto, unfolding(crate::specs::Timeouts::is_zero_time))]
fn is_zero_time(text: &str) -> bool
    ensures { result ≡ spec.is_zero_time text.now }
{
    text == "'0s'" || text == "'0min'" || text == "'0h'"
}

fn is_zero(text: &str) -> bool
    ensures { result ≡ spec.is_zero text.now }
{
    is_bare_zero(text) || is_zero_time(text)
}

/// Whether a token is a literal other than 0.
#[tactic(auto, unfolding(crate::specs::Timeouts::is_limit_at))]
fn is_limit_at(p: &Parse<'_>, i: usize) -> bool
    requires { i < length p.now.toks }
    ensures { result ≡ spec.is_limit_at p.now i }
{
    is_literal(p.tokens()[i].kind) && !is_zero(p.token_text(i))
}

fn is_to(p: &Parse<'_>, i: usize) -> bool
    requires { i < length p.now.toks }
    ensures { result ≡ spec.is_to p.now i }
{
    is_word_at(p, Keyword::TO, i) || p.token_text(i) == "="
}

/// The value after a token that is TO or an equals sign.
fn value_after(p: &Parse<'_>, i: usize, end: usize) -> Option<usize>
    requires { i < length p.now.toks }
    ensures value { result ≡ spec.value_after p.now end i }
    ensures within { IfSome result (λ v. v < length p.now.toks) }
{
    if is_to(p, i) {
        token_from(p, after(p, i), end)
    } else {
        None
    }
}

/// Whether a literal other than 0 follows the path of a parameter.
#[tactic(auto, unfolding(crate::specs::Timeouts::gives_limit))]
fn gives_limit(p: &Parse<'_>, path: Option<Span>, end: usize) -> bool
    ensures { result ≡ spec.gives_limit p.now end path }
{
    match path {
        Some(path) => match token_from(p, path.last as usize + 1, end) {
            Some(to) => match value_after(p, to, end) {
                Some(value) => is_limit_at(p, value),
                None => false,
            },
            None => false,
        },
        None => false,
    }
}

/// Whether a statement is a RESET of this parameter, or of all.
#[tactic(auto, unfolding(crate::specs::Timeouts::resets))]
fn resets(p: &Parse<'_>, name: &str, s: &Stmt) -> bool
    ensures { result ≡ spec.resets p.now name.now s.now }
{
    same_kind(s.kind, StmtKind::Reset)
        && (says(p, &[Keyword::RESET, Keyword::ALL], s)
            || is_parameter(p, name, path_after(p, &[Keyword::RESET], &[], s)))
}

/// Whether a statement is DISCARD ALL.
#[tactic(auto, unfolding(crate::specs::Timeouts::discards_all))]
pub(crate) fn discards_all(p: &Parse<'_>, s: &Stmt) -> bool
    ensures { result ≡ spec.discards_all p.now s.now }
{
    same_kind(s.kind, StmtKind::Discard) && says(p, &[Keyword::DISCARD, Keyword::ALL], s)
}

fn changes(p: &Parse<'_>, name: &str, s: &Stmt) -> bool
    ensures { result ≡ spec.changes p.now name.now s.now }
{
    sets(p, name, s) || resets(p, name, s) || discards_all(p, s)
}

fn limits(p: &Parse<'_>, name: &str, s: &Stmt) -> bool
    ensures { result ≡ spec.limits p.now name.now s.now }
{
    sets(p, name, s) && gives_limit(p, parameter(s), s.last as usize + 1)
}

/// Whether a timeout is set after a statement, given whether it was set before.
pub(crate) fn is_set_after(p: &Parse<'_>, name: &str, s: &Stmt, was_set: bool) -> bool
    ensures { result ≡ (spec.limits p.now name.now s.now || (was_set && not (spec.changes p.now name.now s.now))) }
{
    limits(p, name, s) || (was_set && !changes(p, name, s))
}
