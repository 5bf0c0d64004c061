//! The actions of ALTER statements (PostgreSQL manual, part VI, SQL Commands).

ghost use Rattle.std.specs.Prelude.{◌≡◌, IfOk, map};
ghost use Rattle.sql_tree.specs.Action as spec;
ghost use Rattle.sql_tree.specs.Forms.{at};
ghost use Rattle.sql_action.specs.Puts.{put_after};

use crate::pieces::{read_attributes, read_column_option, read_pieces};
use crate::starts::{first_symbol, own_part, skip_word, takes_constraint};
use crate::tables::{first_rows_at, general_rows_at, own_rows};
use sql_column::{
    Mark, Parts, after_word, make_room, nothing_kept, read_column, read_table_constraint,
    read_whole, span_of,
};
use sql_tree::actions::{OPTIONS, OTHER, PieceList};
use sql_tree::forms::{ActionRows, Captures};
use sql_tree::{
    Action, ActionKind, Column, Constraint, Keyword, NoMemory, Piece, StmtKind, Terminal,
};
use sqlite_items::Items;
use std::alloc::Global;

// ---- ADD and a table constraint

fn adding(alloc: Global, terminals: &[Terminal], constraint: Constraint) -> Action
    ensures { result ≡ spec.adding terminals.now constraint }
{
    let span = span_of(terminals);
    Action {
        kind: ActionKind::AddConstraint,
        first: span.first,
        last: span.last,
        name: None,
        path: None,
        word: None,
        guarded: false,
        placed: false,
        column: None,
        constraint: Some(constraint),
        pieces: Items::new(alloc),
    }
}

/// ADD and a table constraint.
#[tactic(auto, unfolding(sql_tree::specs::Action::add_constraint))]
fn add_constraint(
    alloc: Global,
    terminals: &[Terminal],
    actions: &mut Vec<Action>,
) -> Result<bool, NoMemory>
    ensures { IfOk result (λ found. (found, actions.new.items) ≡ put_after (spec.add_constraint terminals.now) actions.old.items) }
{
    let Some(rest) = after_word(Keyword::ADD, terminals) else {
        return Ok(false);
    };
    match read_table_constraint(alloc, rest)? {
        None => Ok(false),
        Some(constraint) => {
            actions.push(adding(alloc, terminals, constraint))?;
            Ok(true)
        }
    }
}

#[tactic(auto, unfolding(sql_tree::specs::Action::added_constraint))]
fn added_constraint(
    alloc: Global,
    kind: StmtKind,
    terminals: &[Terminal],
    actions: &mut Vec<Action>,
) -> Result<bool, NoMemory>
    ensures { IfOk result (λ found. (found, actions.new.items) ≡ put_after (spec.added_constraint kind terminals.now) actions.old.items) }
{
    if takes_constraint(kind, terminals) {
        add_constraint(alloc, terminals, actions)
    } else {
        Ok(false)
    }
}

// ---- an action that a row reads

/// The column of an action, by what its row leaves open; `Ok(None)` where it must have one and has none.
#[tactic(auto, unfolding(sql_tree::specs::Action::column_in))]
fn column_in(
    alloc: Global,
    kind: ActionKind,
    rest: &[Terminal],
) -> Result<Option<Option<Column>>, NoMemory>
    ensures { IfOk result (λ column. column ≡ spec.column_in kind rest.now) }
{
    match kind {
        ActionKind::AddColumn => match read_column(alloc, rest)? {
            None => Ok(None),
            Some(column) => Ok(Some(Some(column))),
        },
        _ => Ok(Some(None)),
    }
}

/// The pieces of an action, by what its row leaves open; `Ok(None)` where they are none of its kind.
#[tactic(auto, unfolding(sql_tree::specs::Action::pieces_in))]
fn pieces_in(
    alloc: Global,
    kind: ActionKind,
    rest: &[Terminal],
) -> Result<Option<Items<Piece>>, NoMemory>
    ensures { IfOk result (λ pieces. pieces ≡ spec.pieces_in kind rest.now) }
{
    match kind {
        ActionKind::AlterConstraint => read_pieces(alloc, PieceList::ConstraintOptions, rest),
        ActionKind::AlterColumn => read_column_option(alloc, rest),
        ActionKind::SequenceOptions => read_pieces(alloc, PieceList::SequenceOptions, rest),
        ActionKind::PolicyChange => read_pieces(alloc, PieceList::PolicyParts, rest),
        ActionKind::Attributes => read_attributes(alloc, rest),
        _ => Ok(Some(Items::new(alloc))),
    }
}

/// The action of this kind, of which so much is kept and left open.
#[tactic(auto, unfolding(sql_tree::specs::Action::built))]
fn built(
    alloc: Global,
    terminals: &[Terminal],
    kind: ActionKind,
    kept: &Captures,
    rest: &[Terminal],
    actions: &mut Vec<Action>,
) -> Result<bool, NoMemory>
    ensures { IfOk result (λ found. (found, actions.new.items) ≡ put_after (spec.built terminals.now kind (at kept.now rest.now)) actions.old.items) }
{
    let Some(column) = column_in(alloc, kind, rest)? else {
        return Ok(false);
    };
    let Some(pieces) = pieces_in(alloc, kind, rest)? else {
        return Ok(false);
    };
    let span = span_of(terminals);
    actions.push(Action {
        kind,
        first: span.first,
        last: span.last,
        name: kept.name,
        path: kept.path,
        word: kept.word,
        guarded: kept.guarded,
        placed: kept.placed,
        column,
        constraint: None,
        pieces,
    })?;
    Ok(true)
}

/// The action that the first of the rows reads; none where none reads it, or the action is none of that row's kind.
#[tactic(auto, unfolding(sql_tree::specs::Action::by_rows))]
fn by_rows(
    alloc: Global,
    rows: ActionRows,
    terminals: &[Terminal],
    actions: &mut Vec<Action>,
) -> Result<bool, NoMemory>
    ensures { IfOk result (λ found. (found, actions.new.items) ≡ put_after (spec.by_rows (map (λ r. (r.0, r.1.now)) rows.entry.now) terminals.now) actions.old.items) }
{
    if rows.is_empty() {
        return Ok(false);
    }
    let mut kept = nothing_kept();
    match read_whole(rows, &mut kept, terminals) {
        None => Ok(false),
        Some((kind, rest)) => built(alloc, terminals, kind, &kept, rest, actions),
    }
}

// ---- one action

#[tactic(auto, unfolding(sql_tree::specs::Action::own_action))]
fn own_action(
    alloc: Global,
    kind: StmtKind,
    terminals: &[Terminal],
    actions: &mut Vec<Action>,
) -> Result<bool, NoMemory>
    ensures { IfOk result (λ found. (found, actions.new.items) ≡ put_after (spec.own_action kind terminals.now) actions.old.items) }
{
    match own_part(kind, terminals) {
        None => Ok(false),
        Some(part) => by_rows(alloc, own_rows(kind), part, actions),
    }
}

#[tactic(auto, unfolding(sql_tree::specs::Action::general_action), using(crate::proofs::Puts::first_put, crate::proofs::Puts::other_put))]
fn general_action(
    alloc: Global,
    kind: StmtKind,
    terminals: &[Terminal],
    actions: &mut Vec<Action>,
) -> Result<bool, NoMemory>
    ensures { IfOk result (λ found. (found, actions.new.items) ≡ put_after (spec.general_action kind terminals.now) actions.old.items) }
{
    if added_constraint(alloc, kind, terminals, actions)? {
        return Ok(true);
    }
    by_rows(
        alloc,
        general_rows_at(first_symbol(terminals)),
        terminals,
        actions,
    )
}

#[tactic(auto, unfolding(sql_tree::specs::Action::listed_action), using(crate::proofs::Puts::first_put, crate::proofs::Puts::other_put))]
fn listed_action(
    alloc: Global,
    kind: StmtKind,
    terminals: &[Terminal],
    actions: &mut Vec<Action>,
) -> Result<bool, NoMemory>
    ensures { IfOk result (λ found. (found, actions.new.items) ≡ put_after (spec.listed_action kind terminals.now) actions.old.items) }
{
    let first = first_rows_at(first_symbol(terminals));
    if by_rows(alloc, first, terminals, actions)? {
        return Ok(true);
    }
    if own_action(alloc, kind, terminals, actions)? {
        return Ok(true);
    }
    general_action(alloc, kind, terminals, actions)
}

fn takes_options(kind: StmtKind) -> bool
    ensures { result ≡ spec.takes_options kind }
{
    matches!(
        kind,
        StmtKind::AlterRole | StmtKind::AlterUser | StmtKind::AlterDatabase
    )
}

/// Options of a role or a database: what has no other form.
#[tactic(auto, unfolding(sql_tree::specs::Action::options))]
fn options(
    alloc: Global,
    kind: StmtKind,
    terminals: &[Terminal],
    actions: &mut Vec<Action>,
) -> Result<bool, NoMemory>
    ensures { IfOk result (λ found. (found, actions.new.items) ≡ put_after (spec.options kind terminals.now) actions.old.items) }
{
    if takes_options(kind) {
        by_rows(
            alloc,
            &OPTIONS,
            skip_word(Keyword::WITH, terminals),
            actions,
        )
    } else {
        Ok(false)
    }
}

#[tactic(auto, unfolding(sql_tree::specs::Action::unlisted_action), using(crate::proofs::Puts::first_put, crate::proofs::Puts::other_put))]
fn unlisted_action(
    alloc: Global,
    kind: StmtKind,
    terminals: &[Terminal],
    actions: &mut Vec<Action>,
) -> Result<bool, NoMemory>
    ensures { IfOk result (λ found. (found, actions.new.items) ≡ put_after (spec.unlisted_action kind terminals.now) actions.old.items) }
{
    if options(alloc, kind, terminals, actions)? {
        return Ok(true);
    }
    by_rows(alloc, &OTHER, terminals, actions)
}

/// Puts the action that these terminals are after the others, and tells whether there is one: there is none only where
/// there is no terminal.
#[tactic(auto, unfolding(sql_tree::specs::Action::action), using(crate::proofs::Puts::first_put, crate::proofs::Puts::other_put))]
fn read_action(
    alloc: Global,
    kind: StmtKind,
    terminals: &[Terminal],
    actions: &mut Vec<Action>,
) -> Result<bool, NoMemory>
    ensures { IfOk result (λ found. (found, actions.new.items) ≡ put_after (spec.action kind terminals.now) actions.old.items) }
{
    if terminals.is_empty() {
        return Ok(false);
    }
    if listed_action(alloc, kind, terminals, actions)? {
        return Ok(true);
    }
    unlisted_action(alloc, kind, terminals, actions)
}

// ---- lists of actions

fn has_several(kind: StmtKind) -> bool
    ensures { result ≡ spec.has_several kind }
{
    matches!(
        kind,
        StmtKind::AlterTable | StmtKind::AlterForeignTable | StmtKind::AlterMaterializedView
    )
}

/// The actions between commas.
#[tactic(auto, unfolding(sql_tree::specs::Action::several_actions))]
fn several_actions(
    alloc: Global,
    kind: StmtKind,
    tail: &[Terminal],
) -> Result<Option<Items<Action>>, NoMemory>
    ensures { IfOk result (λ actions. actions ≡ spec.several_actions kind tail.now) }
{
    let mut actions = Vec::new(alloc);
    let mut parts = Parts::new(Mark::Comma, tail);
    while let Some(part) = parts.next_part() {
        make_room(&mut actions, part, tail)?;
        if !read_action(alloc, kind, part, &mut actions)? {
            return Ok(None);
        }
    }
    Ok(Some(Items::from_vec(actions)))
}

#[tactic(auto, unfolding(sql_tree::specs::Action::one_action))]
fn one_action(
    alloc: Global,
    kind: StmtKind,
    tail: &[Terminal],
) -> Result<Option<Items<Action>>, NoMemory>
    ensures { IfOk result (λ actions. actions ≡ spec.one_action kind tail.now) }
{
    let mut actions = Vec::with_capacity(alloc, 1)?;
    if read_action(alloc, kind, tail, &mut actions)? {
        Ok(Some(Items::from_vec(actions)))
    } else {
        Ok(None)
    }
}

/// The actions of an ALTER statement of this kind, by its terminals that its form leaves open, without the semicolon.
/// `Ok(None)` where they are none: where there is no terminal, or none between two commas that part actions.
#[tactic(auto, unfolding(sql_tree::specs::Action::actions_of))]
pub fn read_actions_of(
    alloc: Global,
    kind: StmtKind,
    tail: &[Terminal],
) -> Result<Option<Items<Action>>, NoMemory>
    ensures { IfOk result (λ actions. actions ≡ spec.actions_of kind tail.now) }
{
    if has_several(kind) {
        several_actions(alloc, kind, tail)
    } else {
        one_action(alloc, kind, tail)
    }
}
