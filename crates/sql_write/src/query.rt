//! The targets of a query (PostgreSQL manual, SELECT, output expressions).

ghost use Rattle.std.specs.Prelude.{◌≡◌, IfOk};
ghost use Rattle.std.specs.Option.{option_and_then};
ghost use Rattle.sql_tree.specs.sql_keyword.declared.words.TheConstants.Keyword as keyword;
ghost use Rattle.sql_tree.specs.Forms.{after_word};
ghost use Rattle.sql_tree.specs.Split.{after_list};
ghost use Rattle.sql_tree.specs.Write as spec;

use sql_constraint::{
    Mark, Parts, WriteMark, after_list, after_word, make_room, names_from, until,
};
use sql_tree::{Keyword, NoMemory, Target, Terminal};
use sqlite_items::Items;
use std::alloc::Global;

fn name_after_as(terminals: &[Terminal]) -> Option<u32>
    ensures { result ≡ spec.name_after_as terminals.now }
{
    match terminals {
        [first, name] if first.is_keyword(Keyword::AS) && name.is_name() => Some(name.number),
        _ => None,
    }
}

/// The name of a closing `AS name`.
#[tactic(auto, unfolding(sql_tree::specs::Write::alias_name))]
fn alias_name(terminals: &[Terminal]) -> Option<u32>
    ensures { result ≡ spec.alias_name terminals.now }
{
    let count = terminals.len();
    if count < 2 {
        return name_after_as(terminals);
    }
    name_after_as(&terminals[count - 2..])
}

/// The last name of a path that is all of these terminals.
#[tactic(auto, unfolding(sql_tree::specs::Write::path_name))]
fn path_name(terminals: &[Terminal]) -> Option<u32>
    ensures { result ≡ spec.path_name terminals.now }
{
    match terminals {
        [first, rest @ ..] if first.is_name() => {
            let (last, left) = names_from(first.number, rest);
            if left.is_empty() { Some(last) } else { None }
        }
        _ => None,
    }
}

#[tactic(auto, unfolding(sql_tree::specs::Write::query_target))]
fn query_target(terminals: &[Terminal]) -> Option<Target>
    ensures { result ≡ spec.query_target terminals.now }
{
    let name = match alias_name(terminals) {
        Some(name) => name,
        None => path_name(terminals)?,
    };
    Some(Target {
        name,
        partial: false,
    })
}

/// What follows DISTINCT: a list after ON is taken.
fn after_on<'a>(terminals: &'a [Terminal]) -> &'a [Terminal]
    ensures { result.now ≡ spec.left_or terminals.entry.now (option_and_then after_list (after_word keyword.ON terminals.entry.now)) }
{
    match after_word(Keyword::ON, terminals) {
        None => terminals,
        Some(rest) => match after_list(rest) {
            None => terminals,
            Some(after) => after,
        },
    }
}

/// What follows ALL, DISTINCT or DISTINCT ON ( .. ), where one of them comes first.
#[tactic(auto, unfolding(sql_tree::specs::Write::after_distinct))]
fn after_distinct(terminals: &[Terminal]) -> &[Terminal]
    ensures { result.now ≡ spec.after_distinct terminals.now }
{
    match terminals {
        [first, rest @ ..] if first.is_keyword(Keyword::ALL) => rest,
        [first, rest @ ..] if first.is_keyword(Keyword::DISTINCT) => after_on(rest),
        _ => terminals,
    }
}

/// The targets of a query that have a name, by what follows its word SELECT: the name after a closing AS, or the last
/// name of a path.
#[tactic(auto, unfolding(sql_tree::specs::Write::targets))]
pub fn read_targets(alloc: Global, terminals: &[Terminal]) -> Result<Items<Target>, NoMemory>
    ensures { IfOk result (λ ts. ts ≡ spec.targets terminals.now) }
{
    let mut targets = Vec::new(alloc);
    let listed = until(
        Mark::Write(WriteMark::TargetListEnd),
        after_distinct(terminals),
    );
    let mut parts = Parts::new(Mark::Comma, listed);
    while let Some(part) = parts.next_part() {
        if let Some(found) = query_target(part) {
            make_room(&mut targets, part, listed)?;
            targets.push(found)?;
        }
    }
    Ok(Items::from_vec(targets))
}
