//! Lists of columns that INSERT and MERGE fill (PostgreSQL manual, INSERT and MERGE).

ghost use Rattle.std.specs.Prelude.{◌≡◌, IfOk, drop};
ghost use Rattle.sql_tree.specs.Write as spec;

use crate::target::targets_between;
use sql_constraint::{Mark, Parts, WriteMark, begins_list, inside_list, put};
use sql_tree::{Keyword, NoMemory, StmtKind, Symbol, Target, Terminal};
use sqlite_items::Items;
use std::alloc::Global;

fn is_query_word(word: Keyword) -> bool
    ensures { result ≡ spec.is_query_word word }
{
    matches!(
        word,
        Keyword::SELECT | Keyword::WITH | Keyword::VALUES | Keyword::TABLE
    )
}

fn is_query_symbol(symbol: Symbol) -> bool
    ensures { result ≡ spec.is_query_symbol symbol }
{
    match symbol {
        Symbol::Keyword(word) => is_query_word(word),
        Symbol::OpenRound => true,
        _ => false,
    }
}

fn begins_query(terminals: &[Terminal]) -> bool
    ensures { result ≡ spec.begins_query terminals.now }
{
    match terminals {
        [] => false,
        [first, ..] => is_query_symbol(first.symbol),
    }
}

/// The columns of the bracket list that comes first; `None` where there is none, or where it is a query.
#[tactic(auto, unfolding(sql_tree::specs::Write::column_list))]
fn column_list(alloc: Global, terminals: &[Terminal]) -> Result<Option<Items<Target>>, NoMemory>
    ensures { IfOk result (λ list. list ≡ spec.column_list terminals.now) }
{
    if !begins_list(terminals) || begins_query(inside_list(terminals)) {
        return Ok(None);
    }
    let targets = targets_between(alloc, inside_list(terminals))?;
    Ok(Some(targets))
}

/// What follows `AS name`, where it comes first.
#[tactic(auto, unfolding(sql_tree::specs::Write::after_alias))]
fn after_alias(terminals: &[Terminal]) -> &[Terminal]
    ensures { result.now ≡ spec.after_alias terminals.now }
{
    match terminals {
        [first, name, rest @ ..] if first.is_keyword(Keyword::AS) && name.is_name() => rest,
        _ => terminals,
    }
}

/// The terminals after the first one.
fn after_one(terminals: &[Terminal]) -> &[Terminal]
    ensures { result.now ≡ drop 1 terminals.now }
{
    match terminals {
        [] => &[],
        [_, rest @ ..] => rest,
    }
}

/// The lists after THEN INSERT.
#[tactic(auto, unfolding(sql_tree::specs::Write::insert_lists))]
fn insert_lists(alloc: Global, tail: &[Terminal]) -> Result<Items<Items<Target>>, NoMemory>
    ensures { IfOk result (λ lists. lists ≡ spec.insert_lists tail.now) }
{
    let mut lists = Vec::new(alloc);
    let mut parts = Parts::new(Mark::Write(WriteMark::ThenInsert), tail);
    let _front = parts.next_part();
    while let Some(part) = parts.next_part() {
        if let Some(list) = column_list(alloc, after_one(part))? {
            put(&mut lists, list)?;
        }
    }
    Ok(Items::from_vec(lists))
}

/// The lists of a statement of this kind, by what follows its table.
#[tactic(auto, unfolding(sql_tree::specs::Write::lists_of))]
pub(crate) fn lists_of(
    alloc: Global,
    kind: StmtKind,
    tail: &[Terminal],
) -> Result<Items<Items<Target>>, NoMemory>
    ensures { IfOk result (λ lists. lists ≡ spec.lists_of kind tail.now) }
{
    match kind {
        StmtKind::Insert => {
            let mut lists = Vec::new(alloc);
            if let Some(list) = column_list(alloc, after_alias(tail))? {
                put(&mut lists, list)?;
            }
            Ok(Items::from_vec(lists))
        }
        StmtKind::Merge => insert_lists(alloc, tail),
        _ => Ok(Items::new(alloc)),
    }
}
