//! Where the type of a column ends, where each of its constraints begins, and where a default's expression ends
//! (PostgreSQL manual, CREATE TABLE, column_constraint).

ghost use Rattle.std.specs.Prelude.{◌≡◌, ◌≤◌};
ghost use Rattle.sql_tree.specs.ColumnMarks as spec;

use crate::depth::begins_with;
use sql_token::{Keyword, Symbol, Terminal};
use sql_tree::ConKind;

// ---- ends

fn is_value_end_word(word: Keyword) -> bool
    ensures { result ≡ spec.is_value_end_word word }
{
    match word {
        Keyword::CONSTRAINT | Keyword::NOT | Keyword::NULL | Keyword::CHECK => true,
        Keyword::DEFAULT | Keyword::GENERATED | Keyword::UNIQUE | Keyword::PRIMARY => true,
        Keyword::REFERENCES | Keyword::DEFERRABLE | Keyword::INITIALLY => true,
        Keyword::ENFORCED | Keyword::COMPRESSION | Keyword::STORAGE => true,
        _ => false,
    }
}

/// Whether a word ends the expression of a DEFAULT.
pub(crate) fn is_value_end(symbol: Symbol) -> bool
    ensures { result ≡ spec.is_value_end_symbol symbol }
{
    match symbol {
        Symbol::Keyword(word) => is_value_end_word(word),
        _ => false,
    }
}

/// Whether a word ends the type of a column.
#[tactic(auto, unfolding(sql_token::specs::Terminal::is_keyword))]
pub(crate) fn is_type_end(t: Terminal) -> bool
    ensures { result ≡ spec.is_type_end t }
{
    match t.symbol {
        Symbol::Keyword(word) => {
            is_value_end_word(word)
                || t.is_keyword(Keyword::COLLATE)
                || t.is_keyword(Keyword::USING)
                || t.is_keyword(Keyword::OPTIONS)
        }
        _ => false,
    }
}

// ---- what a constraint is, by the words that open it

fn kind_before(kind: ConKind, word: Keyword, after: &[Terminal]) -> Option<ConKind>
    ensures { result ≡ spec.kind_before kind word after.now }
{
    if begins_with(word, after) {
        Some(kind)
    } else {
        None
    }
}

fn kind_of_word(word: Keyword, after: &[Terminal]) -> Option<ConKind>
    ensures { result ≡ spec.kind_of_word word after.now }
{
    match word {
        Keyword::NOT => kind_before(ConKind::NotNull, Keyword::NULL, after),
        Keyword::PRIMARY => kind_before(ConKind::PrimaryKey, Keyword::KEY, after),
        Keyword::NULL => Some(ConKind::Null),
        Keyword::CHECK => Some(ConKind::Check),
        Keyword::DEFAULT => Some(ConKind::Default),
        Keyword::GENERATED => Some(ConKind::Generated),
        Keyword::UNIQUE => Some(ConKind::Unique),
        Keyword::REFERENCES => Some(ConKind::References),
        _ => None,
    }
}

/// The kind of the column's constraint that opens with `t` and the terminals after it.
#[tactic(auto, unfolding(sql_tree::specs::ColumnMarks::kind_led))]
pub fn kind_led(t: Terminal, after: &[Terminal]) -> Option<ConKind>
    ensures { result ≡ spec.kind_led t after.now }
{
    match t.symbol {
        Symbol::Keyword(word) => kind_of_word(word, after),
        _ => None,
    }
}

#[tactic(auto, unfolding(sql_tree::specs::ColumnMarks::first_kind))]
fn first_kind(terminals: &[Terminal]) -> Option<ConKind>
    ensures { result ≡ spec.first_kind terminals.now }
{
    match terminals {
        [] => None,
        [first, rest @ ..] => kind_led(*first, rest),
    }
}

// ---- where a constraint begins

fn follows(word: Keyword, earlier: Option<Terminal>) -> bool
    ensures { result ≡ spec.follows word earlier }
{
    match earlier {
        None => false,
        Some(t) => t.is_keyword(word),
    }
}

/// Whether this NULL or DEFAULT belongs to the word before it.
#[tactic(auto, unfolding(sql_tree::specs::ColumnMarks::is_bound))]
fn is_bound(earlier: Option<Terminal>, t: Terminal) -> bool
    ensures { result ≡ spec.is_bound earlier t }
{
    t.is_keyword(Keyword::NULL) && follows(Keyword::SET, earlier)
        || t.is_keyword(Keyword::DEFAULT)
            && (follows(Keyword::SET, earlier) || follows(Keyword::BY, earlier))
}

#[tactic(auto, unfolding(sql_tree::specs::ColumnMarks::kind_after_name))]
fn kind_after_name(after: &[Terminal]) -> Option<ConKind>
    ensures { result ≡ spec.kind_after_name after.now }
{
    match after {
        [name, rest @ ..] if name.is_name() => first_kind(rest),
        _ => None,
    }
}

/// Whether a constraint of a column begins at `t`, which is between `earlier` and `after`.
#[tactic(auto, unfolding(sql_tree::specs::ColumnMarks::constraint_start))]
pub(crate) fn begins_constraint(earlier: Option<Terminal>, t: Terminal, after: &[Terminal]) -> bool
    ensures { result ≡ spec.constraint_start earlier t after.now }
{
    if t.is_keyword(Keyword::CONSTRAINT) {
        kind_after_name(after).is_some()
    } else {
        kind_led(t, after).is_some() && !is_bound(earlier, t)
    }
}

fn kind_head(kind: Option<ConKind>) -> usize
    ensures value { result ≡ spec.kind_head kind }
    ensures small { result ≤ 1 }
{
    match kind {
        Some(ConKind::NotNull) => 1,
        Some(ConKind::PrimaryKey) => 1,
        Some(ConKind::Default) => 1,
        _ => 0,
    }
}

/// How many terminals of a constraint's head follow its first one, `t`.
#[tactic(auto, unfolding(sql_tree::specs::ColumnMarks::constraint_head))]
pub(crate) fn constraint_head(t: Terminal, after: &[Terminal]) -> usize
    ensures { result ≡ spec.constraint_head t after.now }
{
    if t.is_keyword(Keyword::CONSTRAINT) {
        kind_head(kind_after_name(after)) + 2
    } else {
        kind_head(kind_led(t, after))
    }
}
