//! Groups of equal names.

ghost use Rattle.std.specs.Prelude.{◌≡◌, ◌∷◌, [], ◌++◌, filter, map, IfOk, OnOk};
ghost use Rattle.lint_pass.specs.sql_name.Compared.{name_cut};
ghost use Rattle.std.specs.List.{list_any};
ghost use Rattle.pass_name.specs.Groups.{groups, is_repeated};
ghost use Rattle.pass_name.specs.Groups as spec;
ghost use Rattle.pass_name.specs.Members.{cut_at, same_name};
ghost use Rattle.std.specs.Str.{bytes_eq};
ghost use Rattle.pass_name.specs.Entries.{items_of, entry_seen};
ghost use Rattle.pass_name.specs.Gathered.{put};

use crate::members::Member;
use indexmap::IndexMap;
use lint_pass::{Name, NoMemory, Parse};
use std::alloc::Global;

/// The name that the token of this number gives, empty past the last token.
fn key_at<'t>(p: &Parse<'t>, number: u32) -> Name<'t>
    ensures { name_cut result ≡ cut_at p.now number }
{
    let number = number as usize;
    if number < p.tokens().len() {
        Name::of(p.token_text(number))
    } else {
        Name::of("")
    }
}

/// Whether a name is equal to one of the others.
fn is_among(p: &Parse<'_>, member: &Member, others: &[Member]) -> bool
    ensures { result ≡ list_any (same_name p.now member.now) others.now }
{
    let name = key_at(p, member.name);
    others.iter().any(|other| name == key_at(p, other.name))
}

/// Whether no two names are equal. A short list is looked through in less time than a map is made of it.
#[tactic(auto, unfolding(crate::specs::Groups::are_apart))]
pub(crate) fn are_apart(p: &Parse<'_>, members: &[Member]) -> bool
    ensures { result ≡ spec.are_apart (same_name p.now) members.now }
{
    let mut rest = members;
    while let Some((first, later)) = rest.split_first() {
        if is_among(p, first, later) {
            return false;
        }
        rest = later;
    }
    true
}

/// Puts a member after those of equal names, or alone after all others.
fn put<'t>(
    alloc: Global,
    by_name: &mut IndexMap<Name<'t>, Vec<Member>>,
    name: Name<'t>,
    member: Member,
) -> Result<(), NoMemory>
    ensures { OnOk result (map entry_seen by_name.new.entries ≡ put bytes_eq (map entry_seen by_name.old.entries) (name_cut name.entry) member) }
{
    match by_name.get_mut(&name) {
        Some(alike) => {
            alike.push(member)?;
            Ok(())
        }
        None => {
            by_name.insert(name, vec![in alloc; member]?)?;
            Ok(())
        }
    }
}

/// Adds a list of equal names, where it has more than one.
fn push_repeated(found: &mut Vec<Vec<Member>>, alike: Vec<Member>) -> Result<(), NoMemory>
    ensures { OnOk result (map items_of found.new.items ≡ map items_of found.old.items ++ filter is_repeated (items_of alike ∷ [])) }
{
    if alike.len() > 1 {
        found.push(alike)?;
    }
    Ok(())
}

/// The members of a list whose names are equal to others, group by group, in the order of the groups' first members.
pub(crate) fn gather(
    alloc: Global,
    p: &Parse<'_>,
    members: &[Member],
) -> Result<Vec<Vec<Member>>, NoMemory>
    ensures { IfOk result (λ found. map items_of found.items ≡ groups (same_name p.now) members.now) }
{
    let mut by_name = IndexMap::new(alloc);
    for member in members {
        put(alloc, &mut by_name, key_at(p, member.name), *member)?;
    }
    let mut found = Vec::new(alloc);
    for alike in by_name.into_values() {
        push_repeated(&mut found, alike)?;
    }
    Ok(found)
}
