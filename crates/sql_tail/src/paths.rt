//! Paths.

ghost use Rattle.std.specs.Prelude.{◌≡◌, ◌<◌, length, IfOk, IfSome};
ghost use Rattle.std.specs.Option.{option_map};
ghost use Rattle.sql_tree.specs.Tails as spec;
ghost use Rattle.sql_tail.specs.Paths.{next_name, beside};

use sql_form::path_first;
use sql_token::{Span, Symbol, Terminal};
use sql_tree::NoMemory;
use sqlite_items::Items;
use std::alloc::Global;

/// The name after a comma or a dot: whether it is a comma, the number of the name, and what follows.
#[tactic(auto, unfolding(crate::specs::Paths::next_name))]
fn next_name<'a>(terminals: &'a [Terminal]) -> Option<(bool, u32, &'a [Terminal])>
    ensures value { option_map beside result ≡ next_name terminals.entry.now }
    ensures within { IfSome result (λ p. length p.2.now < length terminals.entry.now) }
{
    match terminals {
        [mark, name, rest @ ..] if mark.is_dot() && name.is_name() => {
            Some((false, name.number, rest))
        }
        [mark, name, rest @ ..] if matches!(mark.symbol, Symbol::Comma) && name.is_name() => {
            Some((true, name.number, rest))
        }
        _ => None,
    }
}

/// The first path and those that follow it, each after a comma, as far as they go; `left` is what comes after the
/// first one.
#[tactic(auto, using(crate::proofs::NextPaths::name_follows, crate::proofs::NextPaths::none_follows))]
pub fn read_paths(alloc: Global, path: Span, left: &[Terminal]) -> Result<Items<Span>, NoMemory>
    ensures { IfOk result (λ paths. paths ≡ spec.paths_from path.first path.last left.now) }
{
    let mut paths = Vec::with_capacity(alloc, 1)?;
    let mut here = left;
    let mut path = path;
    while let Some((is_path, number, rest)) = next_name(here) {
        if is_path {
            paths.push(path)?;
            path.first = number;
        }
        path.last = number;
        here = rest;
    }
    paths.push(path)?;
    Ok(Items::from_vec(paths))
}

/// A path or nothing, and no more than that: `None` where it is something else.
#[tactic(auto, unfolding(sql_tree::specs::Tails::whole_path))]
pub(crate) fn whole_path(terminals: &[Terminal]) -> Option<Option<Span>>
    ensures { result ≡ spec.whole_path terminals.now }
{
    if terminals.is_empty() {
        return Some(None);
    }
    let (path, rest) = path_first(terminals)?;
    match rest {
        [] => Some(Some(path)),
        _ => None,
    }
}
