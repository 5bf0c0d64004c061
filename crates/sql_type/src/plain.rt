//! Types that are no arrays.

ghost use Rattle.std.specs.Prelude.{◌≡◌, ◌≤◌, length};
ghost use Rattle.std.specs.Option.{option_map};
ghost use Rattle.sql_tree.specs.ColumnType as spec;

use sql_mark::{begins_list, begins_with, closing, is_list, path_first, span_of};
use sql_tree::{ColType, Keyword, Span, Symbol, Terminal, TyKind};

fn plain_of(kind: TyKind, name: u32, place: Span, args: Option<Span>, with_zone: bool) -> ColType
    ensures { result ≡ spec.plain_of kind name place args with_zone }
{
    ColType {
        kind,
        whole: place,
        inner: place,
        name,
        args,
        array: false,
        with_zone,
    }
}

/// The bracket list of arguments that this is, or none where nothing is there; `None` where anything else does.
#[tactic(auto, unfolding(sql_tree::specs::ColumnType::arguments))]
fn arguments(rest: &[Terminal]) -> Option<Option<Span>>
    ensures { result ≡ spec.arguments rest.now }
{
    if rest.is_empty() {
        return Some(None);
    }
    if is_list(rest) {
        Some(Some(span_of(rest)))
    } else {
        None
    }
}

/// A type of this kind and name, which arguments may follow.
fn with_arguments(
    kind: TyKind,
    name: u32,
    terminals: &[Terminal],
    rest: &[Terminal],
) -> Option<ColType>
    ensures { result ≡ spec.with_arguments kind name terminals.now rest.now }
{
    let args = arguments(rest)?;
    Some(plain_of(kind, name, span_of(terminals), args, false))
}

#[tactic(auto, unfolding(sql_tree::specs::ColumnType::after_varying))]
fn after_varying(rest: &[Terminal]) -> &[Terminal]
    ensures { result.now ≡ spec.after_varying rest.now }
{
    if begins_with(Keyword::VARYING, rest) {
        &rest[1..]
    } else {
        rest
    }
}

fn character_kind(rest: &[Terminal]) -> TyKind
    ensures { result ≡ spec.character_kind rest.now }
{
    if begins_with(Keyword::VARYING, rest) {
        TyKind::Varchar
    } else {
        TyKind::Character
    }
}

/// CHARACTER or CHAR, with VARYING or without it.
#[tactic(auto, unfolding(sql_tree::specs::ColumnType::character_type))]
fn character_type(terminals: &[Terminal], rest: &[Terminal]) -> Option<ColType>
    ensures { result ≡ spec.character_type terminals.now rest.now }
{
    let kind = character_kind(rest);
    let name = span_of(terminals).first;
    with_arguments(kind, name, terminals, after_varying(rest))
}

/// DOUBLE PRECISION.
#[tactic(auto, unfolding(sql_tree::specs::ColumnType::double_type))]
fn double_type(terminals: &[Terminal], rest: &[Terminal]) -> Option<ColType>
    ensures { result ≡ spec.double_type terminals.now rest.now }
{
    if !begins_with(Keyword::PRECISION, rest) || rest.len() != 1 {
        return None;
    }
    let place = span_of(terminals);
    Some(plain_of(TyKind::Double, place.first, place, None, false))
}

fn is_time_zone(rest: &[Terminal]) -> bool
    ensures { result ≡ spec.is_time_zone rest.now }
{
    match rest {
        [] => false,
        [first, more @ ..] => {
            first.is_keyword(Keyword::TIME) && begins_with(Keyword::ZONE, more) && more.len() == 1
        }
    }
}

/// Whether this is WITH TIME ZONE, and not WITHOUT TIME ZONE or nothing; `None` where anything else is there.
#[tactic(auto, unfolding(sql_tree::specs::ColumnType::zone))]
fn zone(rest: &[Terminal]) -> Option<bool>
    ensures { result ≡ spec.zone rest.now }
{
    match rest {
        [] => Some(false),
        [first, more @ ..] => {
            if !is_time_zone(more) {
                return None;
            }
            if first.is_keyword(Keyword::WITH) {
                return Some(true);
            }
            if first.is_keyword(Keyword::WITHOUT) {
                Some(false)
            } else {
                None
            }
        }
    }
}

/// How many of these are the arguments of TIME or TIMESTAMP.
#[tactic(auto, unfolding(sql_tree::specs::ColumnType::list_len))]
fn list_len(rest: &[Terminal]) -> usize
    ensures value { result ≡ spec.list_len rest.now }
    ensures within { result ≤ length rest.now }
{
    if begins_list(rest) { closing(rest) } else { 0 }
}

fn maybe_span(terminals: &[Terminal]) -> Option<Span>
    ensures { result ≡ spec.maybe_span terminals.now }
{
    if terminals.is_empty() {
        None
    } else {
        Some(span_of(terminals))
    }
}

/// TIME or TIMESTAMP.
#[tactic(auto, unfolding(sql_tree::specs::ColumnType::time_type))]
fn time_type(kind: TyKind, terminals: &[Terminal], rest: &[Terminal]) -> Option<ColType>
    ensures { result ≡ spec.time_type kind terminals.now rest.now }
{
    let len = list_len(rest);
    let with_zone = zone(&rest[len..])?;
    let place = span_of(terminals);
    let args = maybe_span(&rest[..len]);
    Some(plain_of(kind, place.first, place, args, with_zone))
}

/// A type that opens with this word, `rest` being what follows it.
#[tactic(auto, unfolding(sql_tree::specs::ColumnType::word_type))]
fn word_type(word: Keyword, terminals: &[Terminal], rest: &[Terminal]) -> Option<ColType>
    ensures { result ≡ spec.word_type word terminals.now rest.now }
{
    let place = span_of(terminals);
    let name = place.first;
    match word {
        Keyword::VARCHAR => with_arguments(TyKind::Varchar, name, terminals, rest),
        Keyword::CHARACTER => character_type(terminals, rest),
        Keyword::CHAR => character_type(terminals, rest),
        Keyword::BIT => with_arguments(TyKind::Bit, name, terminals, after_varying(rest)),
        Keyword::DOUBLE => double_type(terminals, rest),
        Keyword::TIME => time_type(TyKind::Time, terminals, rest),
        Keyword::TIMESTAMP => time_type(TyKind::Timestamp, terminals, rest),
        Keyword::INTERVAL => Some(plain_of(TyKind::Interval, name, place, None, false)),
        _ => None,
    }
}

fn symbol_type(symbol: Symbol, terminals: &[Terminal], rest: &[Terminal]) -> Option<ColType>
    ensures { result ≡ spec.symbol_type symbol terminals.now rest.now }
{
    match symbol {
        Symbol::Keyword(word) => word_type(word, terminals, rest),
        _ => None,
    }
}

/// A path, which arguments may follow.
#[tactic(auto, unfolding(sql_tree::specs::ColumnType::path_type))]
fn path_type(terminals: &[Terminal]) -> Option<ColType>
    ensures { result ≡ spec.path_type terminals.now }
{
    let (path, rest) = path_first(terminals)?;
    with_arguments(TyKind::Path, path.last, terminals, rest)
}

/// The type that is no array that these terminals are, all of them; `None` where they are none.
#[tactic(auto, unfolding(sql_tree::specs::ColumnType::plain_type))]
pub(crate) fn plain_type(terminals: &[Terminal]) -> Option<ColType>
    ensures { result ≡ spec.plain_type terminals.now }
{
    match terminals {
        [] => None,
        [first, rest @ ..] => {
            if let Some(ty) = symbol_type(first.symbol, terminals, rest) {
                return Some(ty);
            }
            path_type(terminals)
        }
    }
}
