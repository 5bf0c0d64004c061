//! Columns and domains (PostgreSQL manual, CREATE TABLE and CREATE DOMAIN).

ghost use Rattle.std.specs.Prelude.{◌≡◌, IfOk, IfSome};
ghost use Rattle.sql_tree.specs.Column as spec;
ghost use Rattle.sql_column.specs.OneWord.{is_plain_symbol, path_of_one, OneWord};

use sql_constraint::read_column_constraints;
use sql_tree::{ColType, Column, Constraint, NoMemory, Span, Symbol, Terminal, TyKind};
use sql_type::{column_type, type_len};
use sqlite_items::Items;
use std::alloc::Global;

/// Whether this is a name and no key word.
fn is_plain(symbol: Symbol) -> bool
    ensures { result ≡ is_plain_symbol symbol }
{
    match symbol {
        Symbol::Word | Symbol::Quoted => true,
        _ => false,
    }
}

/// The type whose path is one name.
fn path_of_one(number: u32) -> ColType
    ensures { result ≡ path_of_one number }
{
    let place = Span {
        first: number,
        last: number,
    };
    ColType {
        kind: TyKind::Path,
        whole: place,
        inner: place,
        name: number,
        args: None,
        array: false,
        with_zone: false,
    }
}

/// The type that these terminals are, where they are one name and no key word, as most types are. No constraint is there
/// there.
#[inline(always)]
fn one_word(terminals: &[Terminal]) -> Option<ColType>
    ensures { IfSome result (OneWord terminals.now) }
{
    match terminals {
        [only] if is_plain(only.symbol) => Some(path_of_one(only.number)),
        _ => None,
    }
}

fn type_in(terminals: &[Terminal]) -> Option<ColType>
    ensures { result ≡ spec.type_in terminals.now }
{
    let len = type_len(terminals);
    let first = &terminals[..len];
    match one_word(first) {
        Some(ty) => Some(ty),
        None => column_type(first),
    }
}

/// The column that these terminals are, all of them: a name, a type, which may be missing or unknown, and constraints.
/// `Ok(None)` where they are none.
#[tactic(auto, unfolding(sql_tree::specs::Column::column))]
pub fn read_column(alloc: Global, terminals: &[Terminal]) -> Result<Option<Column>, NoMemory>
    ensures { IfOk result (λ c. c ≡ spec.column terminals.now) }
{
    let [name, rest @ ..] = terminals else {
        return Ok(None);
    };
    if !name.is_name() {
        return Ok(None);
    }
    if let Some(ty) = one_word(rest) {
        return Ok(Some(Column {
            name: name.number,
            ty: Some(ty),
            constraints: Items::new(alloc),
        }));
    }
    let Some(constraints) = read_column_constraints(alloc, Some(*name), rest)? else {
        return Ok(None);
    };
    Ok(Some(Column {
        name: name.number,
        ty: type_in(rest),
        constraints,
    }))
}

/// The constraints of a domain, by what follows its path and the word AS; `Ok(None)` where nothing does, or where a
/// DEFAULT has no expression.
#[tactic(auto, unfolding(sql_tree::specs::Column::domain_constraints))]
pub fn read_domain_constraints(
    alloc: Global,
    tail: &[Terminal],
) -> Result<Option<Items<Constraint>>, NoMemory>
    ensures { IfOk result (λ cs. cs ≡ spec.domain_constraints tail.now) }
{
    match tail {
        [] => Ok(None),
        _ => read_column_constraints(alloc, None, tail),
    }
}
