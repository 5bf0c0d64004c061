//! Which reading an expression has, by its own terminals alone.

ghost use Rattle.std.specs.Prelude.{◌≡◌, ◌<◌, length};
ghost use Rattle.std.specs.Bool.{OnTrue};
ghost use Rattle.sql_tree.specs.Expression as spec;

use sql_mark::{
    Mark, Parts, has_mark, inside_list, is_list, is_square, path_first, terminals_before,
};
use sql_tree::{Keyword, Shape, Span, Symbol, Terminal};

// ---- IS NOT NULL

#[tactic(auto, unfolding(sql_tree::specs::Expression::ends_not_null))]
fn ends_not_null(terminals: &[Terminal]) -> bool
    ensures { result ≡ spec.ends_not_null terminals.now }
{
    let len = terminals.len();
    if len < 3 {
        return false;
    }
    let is = terminals[len - 3];
    let not = terminals[len - 2];
    let null = terminals[len - 1];
    is.is_keyword(Keyword::IS) && not.is_keyword(Keyword::NOT) && null.is_keyword(Keyword::NULL)
}

/// Whether this is IS NOT NULL of a part.
#[tactic(auto, unfolding(sql_tree::specs::Expression::is_not_null))]
fn is_not_null(terminals: &[Terminal]) -> bool
    ensures value { result ≡ spec.is_not_null terminals.now }
    ensures long { OnTrue result (3 < length terminals.now) }
{
    if terminals.len() <= 3 || !ends_not_null(terminals) {
        return false;
    }
    let part = &terminals[..terminals.len() - 3];
    !has_mark(Mark::Operator, part) && !ends_not_null(part)
}

// ---- operators and casts

/// Whether no part between operators is empty.
#[tactic(auto, unfolding(sql_tree::specs::Expression::all_full))]
fn all_full(terminals: &[Terminal]) -> bool
    ensures { result ≡ spec.all_full terminals.now }
{
    let mut parts = Parts::new(Mark::Operator, terminals);
    while let Some(part) = parts.next_part() {
        if part.is_empty() {
            return false;
        }
    }
    true
}

/// The shape where `::` or COLLATE comes after `count` terminals.
#[tactic(auto, unfolding(sql_tree::specs::Expression::cast_at))]
fn cast_at(terminals: &[Terminal], count: usize) -> Shape
    requires { count < length terminals.now }
    ensures { result ≡ spec.cast_at terminals.now count }
{
    let mark = terminals[count];
    if mark.is_keyword(Keyword::COLLATE) {
        if count == 0 || count + 1 == terminals.len() {
            Shape::Other
        } else {
            Shape::Collate(count)
        }
    } else if count == 0 || count + 2 >= terminals.len() {
        Shape::Other
    } else {
        Shape::Cast {
            from: 0,
            len: count,
        }
    }
}

// ---- what has neither

fn is_literal_symbol(symbol: Symbol) -> bool
    ensures { result ≡ spec.is_literal_symbol symbol }
{
    match symbol {
        Symbol::One | Symbol::Number | Symbol::Str | Symbol::Dollar => true,
        _ => false,
    }
}

/// Whether this is a number, a string constant, or TRUE, FALSE or NULL.
#[tactic(auto, unfolding(sql_tree::specs::Expression::is_literal))]
fn is_literal(t: Terminal) -> bool
    ensures { result ≡ spec.is_literal t }
{
    is_literal_symbol(t.symbol)
        || t.is_keyword(Keyword::TRUE)
        || t.is_keyword(Keyword::FALSE)
        || t.is_keyword(Keyword::NULL)
}

/// The shape of CAST and what follows it, where that is a bracket list with an AS in it.
#[tactic(auto, unfolding(sql_tree::specs::Expression::cast_call))]
fn cast_call(rest: &[Terminal]) -> Option<Shape>
    ensures { result ≡ spec.cast_call rest.now }
{
    if !is_list(rest) {
        return None;
    }
    let inside = inside_list(rest);
    let len = terminals_before(Mark::Word(Keyword::AS), inside);
    if len < inside.len() {
        Some(Shape::Cast { from: 2, len })
    } else {
        None
    }
}

fn name_of(is_one: bool, path: Span) -> Option<u32>
    ensures { result ≡ spec.name_of is_one path }
{
    if is_one { Some(path.first) } else { None }
}

/// The shape of a path, of one name or more, and what follows it.
#[tactic(auto, unfolding(sql_tree::specs::Expression::after_path))]
fn after_path(is_one: bool, path: Span, rest: &[Terminal]) -> Shape
    ensures { result ≡ spec.after_path is_one path rest.now }
{
    if rest.is_empty() {
        return Shape::Name(path);
    }
    if is_list(rest) {
        Shape::Call {
            name: name_of(is_one, path),
            no_args: rest.len() == 2,
        }
    } else {
        Shape::Other
    }
}

/// A path with a bracket list, or a path alone.
#[tactic(auto, unfolding(sql_tree::specs::Expression::named))]
fn named(terminals: &[Terminal]) -> Shape
    ensures { result ≡ spec.named terminals.now }
{
    match path_first(terminals) {
        None => Shape::Other,
        Some((path, rest)) => after_path(rest.len() + 1 == terminals.len(), path, rest),
    }
}

/// The shape of what has no operators and no casts.
#[tactic(auto, unfolding(sql_tree::specs::Expression::leaf))]
fn leaf(terminals: &[Terminal]) -> Shape
    ensures { result ≡ spec.leaf terminals.now }
{
    match terminals {
        [] => Shape::Other,
        [first, rest @ ..] => {
            if rest.is_empty() && is_literal(*first) {
                return Shape::Literal;
            }
            if first.is_keyword(Keyword::ARRAY) && is_square(rest) {
                return Shape::Array;
            }
            if first.is_keyword(Keyword::CAST) {
                return match cast_call(rest) {
                    Some(shape) => shape,
                    None => named(terminals),
                };
            }
            named(terminals)
        }
    }
}

/// The first reading that fits.
#[tactic(auto, unfolding(sql_tree::specs::Expression::shape_of))]
pub fn shape_of(terminals: &[Terminal]) -> Shape
    ensures { result ≡ spec.shape_of terminals.now }
{
    if is_not_null(terminals) {
        return Shape::IsNotNull(terminals.len() - 3);
    }
    if has_mark(Mark::Operator, terminals) {
        return if all_full(terminals) {
            Shape::Bin
        } else {
            Shape::Other
        };
    }
    let count = terminals_before(Mark::Cast, terminals);
    if count < terminals.len() {
        cast_at(terminals, count)
    } else {
        leaf(terminals)
    }
}
