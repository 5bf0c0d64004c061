//! Constraints of tables and of columns (PostgreSQL manual, CREATE TABLE, table_constraint and column_constraint).

ghost use Rattle.std.specs.Prelude.{◌≡◌, IfOk};
ghost use Rattle.std.specs.Option.{option_map, option_copied};
ghost use Rattle.sql_tree.specs.Constraint as spec;
ghost use Rattle.sql_constraint.specs.Views.{beside};

use crate::value::{value_in, value_of, value_span};
use sql_form::{Mark, after_two, after_word, has_mark, span_of};
use sql_tree::{ConKind, Constraint, Keyword, NoMemory, Symbol, Terminal};
use std::alloc::Global;

// ---- its name

#[tactic(auto, unfolding(sql_tree::specs::Constraint::named))]
fn named<'a>(terminals: &'a [Terminal]) -> Option<(Option<u32>, &'a [Terminal])>
    ensures { option_map beside result ≡ spec.named terminals.entry.now }
{
    match terminals {
        [first, rest @ ..] if first.is_name() => Some((Some(first.number), rest)),
        _ => None,
    }
}

/// The number of the name after CONSTRAINT, where this word is there, and what follows.
#[tactic(auto, unfolding(sql_tree::specs::Constraint::constraint_name))]
pub(crate) fn constraint_name<'a>(
    terminals: &'a [Terminal],
) -> Option<(Option<u32>, &'a [Terminal])>
    ensures { option_map beside result ≡ spec.constraint_name terminals.entry.now }
{
    match terminals {
        [first, rest @ ..] if first.is_keyword(Keyword::CONSTRAINT) => named(rest),
        _ => Some((None, terminals)),
    }
}

// ---- its kind

/// Whether what follows EXCLUDE makes it a constraint.
pub fn is_exclusion(rest: &[Terminal]) -> bool
    ensures { result ≡ spec.is_exclusion rest.now }
{
    match rest {
        [] => false,
        [first, ..] => first.is_keyword(Keyword::USING)
            || matches!(first.symbol, Symbol::OpenRound),
    }
}

#[tactic(auto, unfolding(sql_tree::specs::Constraint::after_exclude))]
fn after_exclude<'a>(terminals: &'a [Terminal]) -> Option<&'a [Terminal]>
    ensures { option_copied result ≡ spec.after_exclude terminals.entry.now }
{
    let rest = after_word(Keyword::EXCLUDE, terminals)?;
    if is_exclusion(rest) { Some(rest) } else { None }
}

#[tactic(auto, unfolding(sql_tree::specs::Constraint::two_word_kind))]
fn two_word_kind<'a>(terminals: &'a [Terminal]) -> Option<(ConKind, &'a [Terminal])>
    ensures { option_map beside result ≡ spec.two_word_kind terminals.entry.now }
{
    if let Some(rest) = after_two(Keyword::PRIMARY, Keyword::KEY, terminals) {
        return Some((ConKind::PrimaryKey, rest));
    }
    if let Some(rest) = after_two(Keyword::FOREIGN, Keyword::KEY, terminals) {
        return Some((ConKind::ForeignKey, rest));
    }
    let rest = after_two(Keyword::NOT, Keyword::NULL, terminals)?;
    Some((ConKind::NotNull, rest))
}

/// The kind of a table constraint, by the words that open it, and what follows them.
#[tactic(auto, unfolding(sql_tree::specs::Constraint::constraint_kind))]
fn constraint_kind<'a>(terminals: &'a [Terminal]) -> Option<(ConKind, &'a [Terminal])>
    ensures { option_map beside result ≡ spec.constraint_kind terminals.entry.now }
{
    if let Some(rest) = after_word(Keyword::CHECK, terminals) {
        return Some((ConKind::Check, rest));
    }
    if let Some(rest) = after_word(Keyword::UNIQUE, terminals) {
        return Some((ConKind::Unique, rest));
    }
    if let Some(rest) = after_exclude(terminals) {
        return Some((ConKind::Exclude, rest));
    }
    two_word_kind(terminals)
}

// ---- the whole

fn is_key(kind: ConKind) -> bool
    ensures { result ≡ spec.is_key kind }
{
    matches!(kind, ConKind::Unique | ConKind::PrimaryKey)
}

/// Whether USING INDEX follows UNIQUE or PRIMARY KEY at once.
#[tactic(auto, unfolding(sql_tree::specs::Constraint::by_index))]
fn is_by_index(kind: ConKind, rest: &[Terminal]) -> bool
    ensures { result ≡ spec.by_index kind rest.now }
{
    is_key(kind) && after_two(Keyword::USING, Keyword::INDEX, rest).is_some()
}

/// The constraint that all of `terminals` is, by its name, its kind, and what follows the words of the kind: neither not
/// valid nor by index.
#[tactic(auto, unfolding(sql_tree::specs::Constraint::constraint_in))]
pub(crate) fn constraint_in(
    alloc: Global,
    terminals: &[Terminal],
    name: Option<u32>,
    kind: ConKind,
    rest: &[Terminal],
) -> Result<Constraint, NoMemory>
    ensures { IfOk result (λ c. c ≡ spec.constraint_in terminals.now name (kind, rest.now)) }
{
    let span = span_of(terminals);
    let value = value_in(kind, rest);
    let expr = value_of(alloc, value)?;
    Ok(Constraint {
        kind,
        name,
        first: span.first,
        last: span.last,
        not_valid: false,
        by_index: false,
        expr,
        expr_span: value_span(value),
    })
}

/// The table constraint that these terminals are, all of them; `Ok(None)` where they are none.
///
/// `first` and `last` are the numbers of the first and the last token, the words CONSTRAINT and its name among them.
#[tactic(auto, unfolding(sql_tree::specs::Constraint::table_constraint))]
pub fn read_table_constraint(
    alloc: Global,
    terminals: &[Terminal],
) -> Result<Option<Constraint>, NoMemory>
    ensures { IfOk result (λ c. c ≡ spec.table_constraint terminals.now) }
{
    let Some((name, after)) = constraint_name(terminals) else {
        return Ok(None);
    };
    let Some((kind, rest)) = constraint_kind(after) else {
        return Ok(None);
    };
    let mut constraint = constraint_in(alloc, terminals, name, kind, rest)?;
    constraint.not_valid = has_mark(Mark::NotValid, terminals);
    constraint.by_index = is_by_index(kind, rest);
    Ok(Some(constraint))
}
