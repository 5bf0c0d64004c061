//! What CREATE VIEW defines (PostgreSQL manual, CREATE VIEW and CREATE MATERIALIZED VIEW).

ghost use Rattle.std.specs.Prelude.{◌≡◌, IfOk};
ghost use Rattle.sql_tree.specs.Split.{all_of, split, comma};
ghost use Rattle.sql_tree.specs.Write as spec;

use crate::query::read_targets;
use sql_constraint::{Mark, Parts, begins_list, from_mark, inside_list, make_room};
use sql_tree::{Keyword, NoMemory, Target, Terminal, ViewDefinition};
use sqlite_items::Items;
use std::alloc::Global;

#[tactic(auto, unfolding(sql_tree::specs::Write::column_name))]
fn column_name(terminals: &[Terminal]) -> Option<Target>
    ensures { result ≡ spec.column_name terminals.now }
{
    match terminals {
        [name] if name.is_name() => Some(Target {
            name: name.number,
            partial: false,
        }),
        _ => None,
    }
}

/// The names between commas; `None` where something else is there.
fn column_names(alloc: Global, terminals: &[Terminal]) -> Result<Option<Items<Target>>, NoMemory>
    ensures { IfOk result (λ names. names ≡ all_of spec.column_name (split comma terminals.now)) }
{
    let mut names = Vec::new(alloc);
    let mut parts = Parts::new(Mark::Comma, terminals);
    while let Some(part) = parts.next_part() {
        make_room(&mut names, part, terminals)?;
        match column_name(part) {
            None => return Ok(None),
            Some(name) => names.push(name)?,
        }
    }
    Ok(Some(Items::from_vec(names)))
}

/// The names of the bracket list that comes first; `None` where it holds anything but names.
#[tactic(auto, unfolding(sql_tree::specs::Write::view_columns))]
fn view_columns(alloc: Global, tail: &[Terminal]) -> Result<Option<Items<Target>>, NoMemory>
    ensures { IfOk result (λ names. names ≡ spec.view_columns tail.now) }
{
    if begins_list(tail) {
        column_names(alloc, inside_list(tail))
    } else {
        Ok(None)
    }
}

/// The targets of the query after the first AS, where it begins with SELECT.
#[tactic(auto, unfolding(sql_tree::specs::Write::view_targets))]
fn view_targets(alloc: Global, tail: &[Terminal]) -> Result<Items<Target>, NoMemory>
    ensures { IfOk result (λ ts. ts ≡ spec.view_targets tail.now) }
{
    match from_mark(Mark::Word(Keyword::AS), tail) {
        [first, second, rest @ ..]
            if first.is_keyword(Keyword::AS) && second.is_keyword(Keyword::SELECT) => {
            read_targets(alloc, rest)
        }
        _ => Ok(Items::new(alloc)),
    }
}

/// What CREATE VIEW defines, by what follows its path: the columns that it names, and the targets of its query where the
/// first AS is directly before SELECT.
#[tactic(auto, unfolding(sql_tree::specs::Write::view_definition))]
pub fn read_view_definition(
    alloc: Global,
    replace: bool,
    tail: &[Terminal],
) -> Result<ViewDefinition, NoMemory>
    ensures { IfOk result (λ v. v ≡ spec.view_definition replace tail.now) }
{
    let columns = match view_columns(alloc, tail)? {
        Some(columns) => columns,
        None => Items::new(alloc),
    };
    let targets = view_targets(alloc, tail)?;
    Ok(ViewDefinition {
        replace,
        columns,
        targets,
    })
}
