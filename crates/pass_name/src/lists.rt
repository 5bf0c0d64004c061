//! The lists of columns of a statement.

ghost use Rattle.std.specs.Prelude.{◌≡◌, ◌++◌, map, option_to_list, IfOk, OnOk};
ghost use Rattle.std.specs.List.{filter_map};
ghost use Rattle.pass_name.specs.Members as spec;

use crate::members::{Member, Removable};
use lint_pass::{Elem, NoMemory, SetPart, Target};
use std::alloc::Global;

fn member_of(t: Target) -> Member
    ensures { result ≡ spec.member_of t }
{
    Member {
        name: t.name,
        partial: t.partial,
        part: None,
    }
}

/// The names of a list.
pub(crate) fn members_of(alloc: Global, targets: &[Target]) -> Result<Vec<Member>, NoMemory>
    ensures { IfOk result (λ names. names.items ≡ map spec.member_of targets.now) }
{
    let mut names = Vec::with_capacity(alloc, targets.len())?;
    for t in targets {
        names.push(member_of(*t))?;
    }
    Ok(names)
}

/// Adds the element's name where it is a column.
fn push_column(names: &mut Vec<Member>, e: &Elem) -> Result<(), NoMemory>
    ensures { OnOk result (names.new.items ≡ names.old.items ++ option_to_list (spec.column_of e.now)) }
{
    match e {
        Elem::Column(column) => {
            names.push(Member {
                name: column.name,
                partial: false,
                part: None,
            })?;
            Ok(())
        }
        _ => Ok(()),
    }
}

/// The columns of a table's list.
pub(crate) fn columns_of(alloc: Global, elems: &[Elem]) -> Result<Vec<Member>, NoMemory>
    ensures { IfOk result (λ names. names.items ≡ filter_map spec.column_of elems.now) }
{
    let mut names = Vec::new(alloc);
    for e in elems {
        push_column(&mut names, e)?;
    }
    Ok(names)
}

/// The part, where it sets one column, in no list, and another part follows.
fn removable(part: &SetPart, later: &[SetPart]) -> Option<Removable>
    ensures { result ≡ spec.removable part.now later.now }
{
    match later.first() {
        Some(next) if part.single && part.targets.len() == 1 => Some(Removable {
            first: part.first,
            last: part.last,
            next: next.first,
        }),
        _ => None,
    }
}

/// Adds the names of a part.
fn push_part(
    names: &mut Vec<Member>,
    part: Option<Removable>,
    targets: &[Target],
) -> Result<(), NoMemory>
    ensures { OnOk result (names.new.items ≡ names.old.items ++ map (spec.assigned_in part) targets.now) }
{
    for t in targets {
        names.push(Member {
            name: t.name,
            partial: t.partial,
            part,
        })?;
    }
    Ok(())
}

/// The names of a SET clause, each with its part.
#[tactic(auto, unfolding(crate::specs::Members::assigned))]
pub(crate) fn assigned(alloc: Global, parts: &[SetPart]) -> Result<Vec<Member>, NoMemory>
    ensures { IfOk result (λ names. names.items ≡ spec.assigned parts.now) }
{
    let mut names = Vec::new(alloc);
    let mut rest = parts;
    while let Some((part, later)) = rest.split_first() {
        push_part(&mut names, removable(part, later), part.targets.as_slice())?;
        rest = later;
    }
    Ok(names)
}

/// The number of the first name, 0 where there is none.
pub(crate) fn first_name(targets: &[Target]) -> u32
    ensures { result ≡ spec.first_name targets.now }
{
    match targets.first() {
        Some(t) => t.name,
        None => 0,
    }
}

/// The number of the first token of a clause, 0 where it has no part.
pub(crate) fn first_token(parts: &[SetPart]) -> u32
    ensures { result ≡ spec.first_token parts.now }
{
    match parts.first() {
        Some(part) => part.first,
        None => 0,
    }
}
