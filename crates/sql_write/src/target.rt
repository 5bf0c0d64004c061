//! Names with accessors, `.name` and `[..]`: what a SET clause or a list of columns writes to.

ghost use Rattle.std.specs.Prelude.{◌≡◌, not, IfOk};
ghost use Rattle.sql_tree.specs.Split.{has};
ghost use Rattle.sql_tree.specs.Write as spec;

use sql_constraint::{Mark, Parts, make_room};
use sql_tree::{NoMemory, Symbol, Target, Terminal};
use sqlite_items::Items;
use std::alloc::Global;

fn is_after_dot(earlier: Option<Terminal>) -> bool
    ensures { result ≡ spec.is_after_dot earlier }
{
    match earlier {
        None => false,
        Some(earlier) => earlier.is_dot(),
    }
}

fn begins_name(terminals: &[Terminal]) -> bool
    ensures { result ≡ spec.begins_name terminals.now }
{
    match terminals {
        [] => false,
        [first, ..] => first.is_name(),
    }
}

/// Whether `t` is `[`, a dot with a name after it, or a name after a dot.
fn is_accessor(earlier: Option<Terminal>, t: Terminal, after: &[Terminal]) -> bool
    ensures { result ≡ spec.is_accessor earlier t after.now }
{
    matches!(t.symbol, Symbol::OpenSquare)
        || (t.is_dot() && begins_name(after))
        || (t.is_name() && is_after_dot(earlier))
}

/// Whether these are the accessors of a name, to the end.
#[tactic(auto, unfolding(sql_tree::specs::Write::no_accessor, sql_tree::specs::Split::before))]
fn are_accessors(terminals: &[Terminal]) -> bool
    ensures { result ≡ not (has spec.no_accessor terminals.now) }
{
    let mut left = terminals;
    let mut earlier = None;
    let mut opened = 0usize;
    let mut closed = 0usize;
    while let [t, rest @ ..] = left {
        if opened == closed && !is_accessor(earlier, *t, rest) {
            return false;
        }
        if t.is_opener() {
            opened += 1;
        }
        if t.is_closer() {
            closed += 1;
        }
        earlier = Some(*t);
        left = rest;
    }
    true
}

/// A name and its accessors, all of these terminals.
#[tactic(auto, unfolding(sql_tree::specs::Write::target))]
pub(crate) fn target(terminals: &[Terminal]) -> Option<Target>
    ensures { result ≡ spec.target terminals.now }
{
    match terminals {
        [] => None,
        [first, rest @ ..] => {
            if first.is_name() && are_accessors(rest) {
                Some(Target {
                    name: first.number,
                    partial: !rest.is_empty(),
                })
            } else {
                None
            }
        }
    }
}

/// The targets between commas; what is none is left out.
#[tactic(auto, unfolding(sql_tree::specs::Write::targets_between))]
pub(crate) fn targets_between(
    alloc: Global,
    terminals: &[Terminal],
) -> Result<Items<Target>, NoMemory>
    ensures { IfOk result (λ ts. ts ≡ spec.targets_between terminals.now) }
{
    let mut targets = Vec::new(alloc);
    let mut parts = Parts::new(Mark::Comma, terminals);
    while let Some(part) = parts.next_part() {
        if let Some(found) = target(part) {
            make_room(&mut targets, part, terminals)?;
            targets.push(found)?;
        }
    }
    Ok(Items::from_vec(targets))
}
