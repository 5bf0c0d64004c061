//! The elements of a table's list (PostgreSQL manual, CREATE TABLE).

ghost use Rattle.std.specs.Prelude.{◌≡◌, [], ◌∷◌, ◌++◌, if◌then◌else◌, IfOk, OnOk};
ghost use Rattle.sql_tree.specs.Column as spec;
ghost use Rattle.sql_tree.specs.Groups.{is_empty};
ghost use Rattle.sql_tree.specs.Constraint.{table_constraint};

use crate::column::read_column;
use sql_constraint::{
    Mark, Parts, has_mark, inside_list, is_exclusion, make_room, read_table_constraint,
};
use sql_tree::{Elem, Keyword, NoMemory, Symbol, Terminal};
use sqlite_items::Items;
use std::alloc::Global;

fn is_constraint_word(word: Keyword) -> bool
    ensures { result ≡ spec.is_constraint_word word }
{
    match word {
        Keyword::CONSTRAINT | Keyword::CHECK | Keyword::UNIQUE => true,
        Keyword::PRIMARY | Keyword::FOREIGN | Keyword::NOT => true,
        _ => false,
    }
}

fn is_constraint_symbol(symbol: Symbol) -> bool
    ensures { result ≡ spec.is_constraint_symbol symbol }
{
    match symbol {
        Symbol::Keyword(word) => is_constraint_word(word),
        _ => false,
    }
}

/// Whether `first` leads a constraint of the table.
#[tactic(auto, unfolding(sql_tree::specs::Column::leads_constraint))]
fn leads_constraint(first: Terminal, after: &[Terminal]) -> bool
    ensures { result ≡ spec.leads_constraint first after.now }
{
    is_constraint_symbol(first.symbol) || first.is_keyword(Keyword::EXCLUDE) && is_exclusion(after)
}

fn put_constraint(
    alloc: Global,
    terminals: &[Terminal],
    elements: &mut Vec<Elem>,
) -> Result<(), NoMemory>
    ensures { OnOk result (elements.new.items ≡ elements.old.items ++ spec.constraint_element (table_constraint terminals.now) ∷ []) }
{
    match read_table_constraint(alloc, terminals)? {
        None => elements.push(Elem::Other)?,
        Some(constraint) => elements.push(Elem::Constraint(constraint))?,
    }
    Ok(())
}

fn put_column(
    alloc: Global,
    terminals: &[Terminal],
    elements: &mut Vec<Elem>,
) -> Result<(), NoMemory>
    ensures { OnOk result (elements.new.items ≡ elements.old.items ++ spec.column_element (spec.column terminals.now) ∷ []) }
{
    match read_column(alloc, terminals)? {
        None => elements.push(Elem::Other)?,
        Some(column) => elements.push(Elem::Column(column))?,
    }
    Ok(())
}

/// Puts the element that these terminals are after the others.
#[tactic(auto, unfolding(sql_tree::specs::Column::element))]
fn put_element(
    alloc: Global,
    terminals: &[Terminal],
    elements: &mut Vec<Elem>,
) -> Result<(), NoMemory>
    ensures { OnOk result (elements.new.items ≡ elements.old.items ++ spec.element terminals.now ∷ []) }
{
    match terminals {
        [] => {
            elements.push(Elem::Other)?;
            Ok(())
        }
        [first, rest @ ..] => {
            if leads_constraint(*first, rest) {
                return put_constraint(alloc, terminals, elements);
            }
            if first.is_keyword(Keyword::LIKE) {
                elements.push(Elem::Like)?;
                return Ok(());
            }
            put_column(alloc, terminals, elements)
        }
    }
}

/// The elements between the commas of a list that is not empty.
fn listed(alloc: Global, inside: &[Terminal]) -> Result<Items<Elem>, NoMemory>
    ensures { IfOk result (λ es. es ≡ spec.listed inside.now) }
{
    let mut elements = Vec::new(alloc);
    let mut parts = Parts::new(Mark::Comma, inside);
    while let Some(part) = parts.next_part() {
        make_room(&mut elements, part, inside)?;
        put_element(alloc, part, &mut elements)?;
    }
    Ok(Items::from_vec(elements))
}

/// The elements of a list, by what is inside its brackets; none, where nothing does.
pub fn elements_inside(alloc: Global, inside: &[Terminal]) -> Result<Items<Elem>, NoMemory>
    ensures { IfOk result (λ es. es ≡ if is_empty inside.now then [] else spec.listed inside.now) }
{
    if inside.is_empty() {
        return Ok(Items::new(alloc));
    }
    listed(alloc, inside)
}

/// The elements of the list that comes directly after a table's path; none, where no list does. An element that does
/// not match its form is `Elem::Other`.
#[tactic(auto, unfolding(sql_tree::specs::Column::elements))]
pub fn read_elements(alloc: Global, tail: &[Terminal]) -> Result<Items<Elem>, NoMemory>
    ensures { IfOk result (λ es. es ≡ spec.elements tail.now) }
{
    elements_inside(alloc, inside_list(tail))
}

/// Whether ON COMMIT DROP comes after a table's path.
#[tactic(auto, unfolding(sql_tree::specs::Column::drops_on_commit))]
pub fn drops_on_commit(tail: &[Terminal]) -> bool
    ensures { result ≡ spec.drops_on_commit tail.now }
{
    has_mark(Mark::OnCommitDrop, tail)
}
