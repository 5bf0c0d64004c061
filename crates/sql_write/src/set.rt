//! SET clauses (PostgreSQL manual, UPDATE, INSERT and MERGE).

ghost use Rattle.std.specs.Prelude.{◌≡◌, IfOk, drop};
ghost use Rattle.sql_constraint.specs.sql_mark.Marks.{test_of};
ghost use Rattle.sql_tree.specs.Write as spec;

use crate::target::{target, targets_between};
use sql_constraint::{
    Mark, Parts, WriteMark, from_mark, inside_list, is_list, make_room, put, span_of,
    terminals_before, until,
};
use sql_tree::{Keyword, NoMemory, SetPart, StmtKind, Target, Terminal};
use sqlite_items::Items;
use std::alloc::Global;

/// What comes before the first `=`; nothing, where there is none.
#[tactic(auto, unfolding(sql_tree::specs::Write::assigned))]
fn assigned(terminals: &[Terminal]) -> &[Terminal]
    ensures { result.now ≡ spec.assigned terminals.now }
{
    let count = terminals_before(Mark::Write(WriteMark::Equals), terminals);
    if count < terminals.len() {
        &terminals[..count]
    } else {
        &[]
    }
}

fn list_targets(alloc: Global, left: &[Terminal]) -> Result<Items<Target>, NoMemory>
    ensures { IfOk result (λ ts. ts ≡ spec.list_targets left.now) }
{
    if is_list(left) {
        targets_between(alloc, inside_list(left))
    } else {
        Ok(Items::new(alloc))
    }
}

/// A part of a clause, whose side before `=` is `left` and, where that is one, the target `single`.
fn part_of(
    alloc: Global,
    terminals: &[Terminal],
    left: &[Terminal],
    single: Option<Target>,
) -> Result<SetPart, NoMemory>
    ensures { IfOk result (λ part. part ≡ spec.set_part_of terminals.now left.now single) }
{
    let span = span_of(terminals);
    match single {
        Some(found) => {
            let mut targets = Vec::new(alloc);
            put(&mut targets, found)?;
            Ok(SetPart {
                first: span.first,
                last: span.last,
                single: true,
                targets: Items::from_vec(targets),
            })
        }
        None => {
            let targets = list_targets(alloc, left)?;
            Ok(SetPart {
                first: span.first,
                last: span.last,
                single: false,
                targets,
            })
        }
    }
}

/// `name accessors = ..` or `( targets ) = ..`. Any other part has no targets, and an empty one is no part.
#[tactic(auto, unfolding(sql_tree::specs::Write::set_part))]
fn set_part(alloc: Global, terminals: &[Terminal]) -> Result<Option<SetPart>, NoMemory>
    ensures { IfOk result (λ part. part ≡ spec.set_part terminals.now) }
{
    if terminals.is_empty() {
        return Ok(None);
    }
    let left = assigned(terminals);
    let part = part_of(alloc, terminals, left, target(left))?;
    Ok(Some(part))
}

/// A clause, by what follows its word SET.
#[tactic(auto, unfolding(sql_tree::specs::Write::set_clause))]
fn set_clause(alloc: Global, end: Mark, terminals: &[Terminal]) -> Result<Items<SetPart>, NoMemory>
    ensures { IfOk result (λ clause. clause ≡ spec.set_clause (test_of end) terminals.now) }
{
    let mut clause = Vec::new(alloc);
    let inside = until(end, terminals);
    let mut parts = Parts::new(Mark::Comma, inside);
    while let Some(part) = parts.next_part() {
        if let Some(found) = set_part(alloc, part)? {
            make_room(&mut clause, part, inside)?;
            clause.push(found)?;
        }
    }
    Ok(Items::from_vec(clause))
}

/// The terminals after the first two; none, where there are no more.
fn after_first_two(terminals: &[Terminal]) -> &[Terminal]
    ensures { result.now ≡ drop 2 terminals.now }
{
    match terminals {
        [_, _, rest @ ..] => rest,
        _ => &[],
    }
}

/// The clauses after DO UPDATE SET or THEN UPDATE SET; one also ends where the next begins.
#[tactic(auto, unfolding(sql_tree::specs::Write::set_clauses))]
fn set_clauses(
    alloc: Global,
    mark: Mark,
    end: Mark,
    tail: &[Terminal],
) -> Result<Items<Items<SetPart>>, NoMemory>
    ensures { IfOk result (λ clauses. clauses ≡ spec.set_clauses (test_of mark) (test_of end) tail.now) }
{
    let mut clauses = Vec::new(alloc);
    let mut parts = Parts::new(mark, tail);
    let _front = parts.next_part();
    while let Some(part) = parts.next_part() {
        let clause = set_clause(alloc, end, after_first_two(part))?;
        put(&mut clauses, clause)?;
    }
    Ok(Items::from_vec(clauses))
}

/// The clause of an UPDATE, after the first word SET.
#[tactic(auto, unfolding(sql_tree::specs::Write::update_clause))]
fn update_clause(alloc: Global, tail: &[Terminal]) -> Result<Items<Items<SetPart>>, NoMemory>
    ensures { IfOk result (λ clauses. clauses ≡ spec.update_clause tail.now) }
{
    let mut clauses = Vec::new(alloc);
    if let [_, rest @ ..] = from_mark(Mark::Word(Keyword::SET), tail) {
        let clause = set_clause(alloc, Mark::Write(WriteMark::ClauseEnd), rest)?;
        put(&mut clauses, clause)?;
    }
    Ok(Items::from_vec(clauses))
}

/// The SET clauses of a statement of this kind, by what follows its table.
#[tactic(auto, unfolding(sql_tree::specs::Write::sets_of))]
pub(crate) fn sets_of(
    alloc: Global,
    kind: StmtKind,
    tail: &[Terminal],
) -> Result<Items<Items<SetPart>>, NoMemory>
    ensures { IfOk result (λ clauses. clauses ≡ spec.sets_of kind tail.now) }
{
    match kind {
        StmtKind::Update => update_clause(alloc, tail),
        StmtKind::Insert => set_clauses(
            alloc,
            Mark::Write(WriteMark::DoUpdateSet),
            Mark::Write(WriteMark::ClauseEnd),
            tail,
        ),
        StmtKind::Merge => set_clauses(
            alloc,
            Mark::Write(WriteMark::ThenUpdateSet),
            Mark::Write(WriteMark::MergeClauseEnd),
            tail,
        ),
        _ => Ok(Items::new(alloc)),
    }
}
