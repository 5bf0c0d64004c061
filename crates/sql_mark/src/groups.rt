//! Bracket groups and paths that come first in a list of terminals.

ghost use Rattle.std.specs.Prelude.{◌≡◌, if◌then◌else◌};
ghost use Rattle.std.specs.Option.{option_map, option_copied};
ghost use Rattle.sql_tree.specs.Forms.{names_end};
ghost use Rattle.sql_tree.specs.Groups as spec;
ghost use Rattle.sql_mark.specs.Views.{beside, path_beside};

use crate::depth::{begins_list, closing};
use sql_token::{Span, Symbol, Terminal};

/// Whether this is one bracket list `( .. )`, and nothing else.
#[tactic(auto, unfolding(sql_tree::specs::Groups::is_list))]
pub fn is_list(terminals: &[Terminal]) -> bool
    ensures { result ≡ spec.is_list terminals.now }
{
    begins_list(terminals) && closing(terminals) == terminals.len()
}

/// What is inside the bracket list that comes first; nothing, where none does.
#[tactic(auto, unfolding(sql_tree::specs::Groups::inside_list))]
pub fn inside_list(terminals: &[Terminal]) -> &[Terminal]
    ensures { result.now ≡ spec.inside_list terminals.now }
{
    if !begins_list(terminals) {
        return &[];
    }
    let end = closing(terminals);
    if end < 2 {
        return &[];
    }
    &terminals[1..end - 1]
}

/// What is inside the one bracket list that this is; `None` where it is none, or where anything follows it.
#[tactic(auto, unfolding(sql_tree::specs::Groups::is_list, sql_tree::specs::Groups::inside_list))]
pub fn inside_alone<'a>(terminals: &'a [Terminal]) -> Option<&'a [Terminal]>
    ensures { option_copied result ≡ if spec.is_list terminals.entry.now then Some (spec.inside_list terminals.entry.now) else None }
{
    if !begins_list(terminals) {
        return None;
    }
    let end = closing(terminals);
    if end < terminals.len() {
        return None;
    }
    if end < 2 {
        return Some(&[]);
    }
    Some(&terminals[1..end - 1])
}

fn begins_square(terminals: &[Terminal]) -> bool
    ensures { result ≡ spec.begins_square terminals.now }
{
    match terminals {
        [] => false,
        [first, ..] => matches!(first.symbol, Symbol::OpenSquare),
    }
}

/// Whether this is one bracket group `[ .. ]`, and nothing else.
#[tactic(auto, unfolding(sql_tree::specs::Groups::is_square))]
pub fn is_square(terminals: &[Terminal]) -> bool
    ensures { result ≡ spec.is_square terminals.now }
{
    begins_square(terminals) && closing(terminals) == terminals.len()
}

/// The last name of names alternating with dots after a name of this number, and what is left after them.
pub fn names_from<'a>(number: u32, left: &'a [Terminal]) -> (u32, &'a [Terminal])
    ensures { beside result ≡ names_end number left.entry.now }
{
    let mut last = number;
    let mut rest = left;
    while let [dot, name, more @ ..] = rest {
        if !dot.is_dot() || !name.is_name() {
            break;
        }
        last = name.number;
        rest = more;
    }
    (last, rest)
}

/// The path that comes first, as many names as there are, and what follows it.
#[tactic(auto, unfolding(sql_tree::specs::Groups::path_first))]
pub fn path_first<'a>(terminals: &'a [Terminal]) -> Option<(Span, &'a [Terminal])>
    ensures { option_map path_beside result ≡ spec.path_first terminals.entry.now }
{
    match terminals {
        [name, rest @ ..] if name.is_name() => {
            let (last, after) = names_from(name.number, rest);
            let first = name.number;
            Some((Span { first, last }, after))
        }
        _ => None,
    }
}
