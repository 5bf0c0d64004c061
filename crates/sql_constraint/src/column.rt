//! Constraints of columns and of domains (PostgreSQL manual, CREATE TABLE, column_constraint).

ghost use Rattle.std.specs.Prelude.{◌≡◌, IfOk, drop};
ghost use Rattle.std.specs.Option.{option_map};
ghost use Rattle.sql_tree.specs.Constraint as spec;
ghost use Rattle.sql_constraint.specs.Views.{beside};

use crate::constraint::{constraint_in, constraint_name};
use crate::list::put;
use sql_form::{Mark, Pieces, kind_led};
use sql_tree::{ConKind, Constraint, NoMemory, Terminal};
use sqlite_items::Items;
use std::alloc::Global;

fn after_kind(kind: ConKind, rest: &[Terminal]) -> &[Terminal]
    ensures { result.now ≡ spec.after_kind kind rest.now }
{
    match kind {
        ConKind::NotNull => after_first(rest),
        ConKind::PrimaryKey => after_first(rest),
        _ => rest,
    }
}

fn after_first(terminals: &[Terminal]) -> &[Terminal]
    ensures { result.now ≡ drop 1 terminals.now }
{
    match terminals {
        [] => terminals,
        [_, rest @ ..] => rest,
    }
}

/// The kind of a column's constraint, by the words that open it, and what follows them.
#[tactic(auto, unfolding(sql_tree::specs::Constraint::column_kind))]
fn column_kind<'a>(terminals: &'a [Terminal]) -> Option<(ConKind, &'a [Terminal])>
    ensures { option_map beside result ≡ spec.column_kind terminals.entry.now }
{
    match terminals {
        [] => None,
        [first, rest @ ..] => {
            let kind = kind_led(*first, rest)?;
            Some((kind, after_kind(kind, rest)))
        }
    }
}

fn is_default(kind: ConKind) -> bool
    ensures { result ≡ spec.is_default kind }
{
    matches!(kind, ConKind::Default)
}

/// The constraint of a column or of a domain that these terminals are, all of them: neither not valid nor by index,
/// whatever words are in it. `Ok(None)` where they are none.
#[tactic(auto, unfolding(sql_tree::specs::Constraint::column_constraint))]
fn column_constraint(alloc: Global, terminals: &[Terminal]) -> Result<Option<Constraint>, NoMemory>
    ensures { IfOk result (λ c. c ≡ spec.column_constraint terminals.now) }
{
    let Some((name, after)) = constraint_name(terminals) else {
        return Ok(None);
    };
    let Some((kind, rest)) = column_kind(after) else {
        return Ok(None);
    };
    if is_default(kind) && rest.is_empty() {
        return Ok(None);
    }
    let constraint = constraint_in(alloc, terminals, name, kind, rest)?;
    Ok(Some(constraint))
}

/// The constraints of a column, or of a domain, that are in these terminals; `Ok(None)` where a DEFAULT has no
/// expression. `earlier` is the terminal before them, where one belongs to the column: after SET or BY, the words
/// NULL and DEFAULT may begin nothing.
#[tactic(auto, unfolding(sql_tree::specs::Constraint::column_constraints))]
pub fn read_column_constraints(
    alloc: Global,
    earlier: Option<Terminal>,
    terminals: &[Terminal],
) -> Result<Option<Items<Constraint>>, NoMemory>
    ensures { IfOk result (λ cs. cs ≡ spec.column_constraints earlier terminals.now) }
{
    let mut constraints = Vec::new(alloc);
    let mut pieces = Pieces::new(Mark::Constraint, earlier, terminals);
    while let Some(piece) = pieces.next_piece() {
        match column_constraint(alloc, piece)? {
            None => return Ok(None),
            Some(constraint) => put(&mut constraints, constraint)?,
        }
    }
    Ok(Some(Items::from_vec(constraints)))
}
