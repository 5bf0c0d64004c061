//! Types, arrays among them.

ghost use Rattle.std.specs.Prelude.{◌≡◌, ◌≤◌, ◌==◌, not, if◌then◌else◌, length};
ghost use Rattle.sql_tree.specs.ColumnType as spec;
ghost use Rattle.sql_tree.specs.Groups.{is_open_square_symbol};

use crate::plain::plain_type;
use sql_mark::{Mark, begins_with, closing, span_of, terminals_before};
use sql_tree::{ColType, Keyword, Symbol, Terminal};

/// How many terminals of a column after its name are its type.
#[tactic(auto, unfolding(sql_tree::specs::ColumnType::type_len))]
pub fn type_len(terminals: &[Terminal]) -> usize
    ensures value { result ≡ spec.type_len terminals.now }
    ensures within { result ≤ length terminals.now }
{
    terminals_before(Mark::TypeEnd, terminals)
}

/// Whether a terminal is no part of the bracket groups `[ .. ]` that end a list, where it comes after `count`
/// terminals, of which the first `kept` are none either.
fn is_kept(outside: bool, kept: usize, count: usize, t: Terminal) -> bool
    ensures { result ≡ if outside then not (is_open_square_symbol t.symbol) else kept == count }
{
    if outside {
        !matches!(t.symbol, Symbol::OpenSquare)
    } else {
        kept == count
    }
}

/// How many terminals come before the bracket groups `[ .. ]` that end the list.
#[tactic(auto, using(crate::proofs::Groups::kept_at_end))]
fn before_groups(terminals: &[Terminal]) -> usize
    ensures value { result ≡ spec.before_groups terminals.now }
    ensures within { result ≤ length terminals.now }
{
    let mut left = terminals;
    let mut kept = 0usize;
    let mut count = 0usize;
    let mut opened = 0usize;
    let mut closed = 0usize;
    while let [first, rest @ ..] = left {
        if is_kept(opened == closed, kept, count, *first) {
            kept = count + 1;
        }
        if first.is_opener() {
            opened += 1;
        }
        if first.is_closer() {
            closed += 1;
        }
        count += 1;
        left = rest;
    }
    kept
}

/// An array of the type that `inner` is.
#[tactic(auto, unfolding(sql_tree::specs::ColumnType::array_of))]
fn array_of(terminals: &[Terminal], inner: &[Terminal]) -> Option<ColType>
    ensures { result ≡ spec.array_of terminals.now inner.now }
{
    let mut ty = plain_type(inner)?;
    ty.whole = span_of(terminals);
    ty.array = true;
    Some(ty)
}

/// A type and its bracket groups, before which `count` terminals are there.
#[tactic(auto, unfolding(sql_tree::specs::ColumnType::array_by_groups))]
fn array_by_groups(terminals: &[Terminal], count: usize) -> Option<ColType>
    requires counted { count ≡ spec.before_groups terminals.now }
    requires within { count ≤ length terminals.now }
    ensures { result ≡ spec.array_by_groups terminals.now }
{
    if count < terminals.len() {
        array_of(terminals, &terminals[..count])
    } else {
        None
    }
}

#[tactic(auto, unfolding(sql_tree::specs::ColumnType::ends_with))]
fn ends_with(word: Keyword, terminals: &[Terminal]) -> bool
    ensures { result ≡ spec.ends_with word terminals.now }
{
    if terminals.is_empty() {
        return false;
    }
    begins_with(word, &terminals[terminals.len() - 1..])
}

/// A type, the word ARRAY, and no more than one group, before which `count` terminals are there.
#[tactic(auto, unfolding(sql_tree::specs::ColumnType::array_by_word))]
fn array_by_word(terminals: &[Terminal], count: usize) -> Option<ColType>
    requires counted { count ≡ spec.before_groups terminals.now }
    requires within { count ≤ length terminals.now }
    ensures { result ≡ spec.array_by_word terminals.now }
{
    let groups = &terminals[count..];
    if ends_with(Keyword::ARRAY, &terminals[..count]) && closing(groups) == groups.len() {
        array_of(terminals, &terminals[..count.saturating_sub(1)])
    } else {
        None
    }
}

/// The type that these terminals are, all of them; `None` where they are none. An array has the fields of its inner
/// type, but for `whole` and `array`.
#[tactic(auto, unfolding(sql_tree::specs::ColumnType::column_type))]
pub fn column_type(terminals: &[Terminal]) -> Option<ColType>
    ensures { result ≡ spec.column_type terminals.now }
{
    let count = before_groups(terminals);
    if let Some(ty) = array_by_word(terminals, count) {
        return Some(ty);
    }
    if let Some(ty) = array_by_groups(terminals, count) {
        return Some(ty);
    }
    plain_type(terminals)
}
