//! The form of one statement. What is read of it is built in its place after the other statements.

ghost use Rattle.std.specs.Prelude.{◌≡◌, IfOk};
ghost use Rattle.std.specs.Option.{option_map};
ghost use Rattle.sql_tree.specs.Forms.{at};
ghost use Rattle.sql_tree.specs.Statement as spec;
ghost use Rattle.sql_action.specs.sql_form.Views.{front};
ghost use Rattle.sql_read.specs.Pushes.{Pushes, stmt_of, form_with};

use crate::body::{
    body_shape_of, end_body, final_kind, index_body, read_body, table_body, table_kind, table_of,
};
use sql_action::{
    Mark, elements_inside, from_mark, inside_alone, is_sound, nothing_kept, read_anything,
    read_front, span_of,
};
use sql_token::{Keyword, Span, Symbol, Terminal};
use sql_tree::forms::{BodyShape, Captures};
use sql_tree::{Body, NoMemory, Stmt, StmtKind};
use sqlite_items::Items;
use std::alloc::Global;

/// The terminals of a statement without its semicolon.
#[tactic(auto, unfolding(sql_token::specs::Terminal::is_semicolon))]
fn without_semicolon(terminals: &[Terminal]) -> &[Terminal]
    ensures { result.now ≡ spec.without_semicolon terminals.now }
{
    if terminals.is_empty() {
        return terminals;
    }
    let last = terminals[terminals.len() - 1];
    if last.is_semicolon() {
        &terminals[..terminals.len() - 1]
    } else {
        terminals
    }
}

// ---- the front

/// The terminals of a statement from its verb on, where WITH leads it; all of them, where it does not.
#[tactic(auto, unfolding(sql_tree::specs::Statement::from_verb))]
fn from_verb(terminals: &[Terminal]) -> &[Terminal]
    ensures { result.now ≡ spec.from_verb terminals.now }
{
    match terminals {
        [first, rest @ ..] if first.is_keyword(Keyword::WITH) => from_mark(Mark::Verb, rest),
        _ => terminals,
    }
}

/// The kind of a statement that begins with this symbol, and what its form leaves open of what follows. What it keeps is
/// written.
#[tactic(auto, unfolding(sql_tree::specs::Statement::front_by))]
fn front_by<'a>(
    symbol: Symbol,
    kept: &mut Captures,
    rest: &'a [Terminal],
) -> Option<(StmtKind, &'a [Terminal])>
    ensures { option_map (front kept.new) result ≡ spec.front_by symbol rest.entry.now }
{
    match symbol {
        Symbol::Keyword(word) => read_front(word, kept, rest),
        Symbol::OpenRound => Some(read_anything(StmtKind::ParenSelect, kept, rest)),
        _ => None,
    }
}

// ---- the statement

/// Puts a statement of this kind after the others, where something is known of it.
#[inline(always)]
fn push(
    stmts: &mut Items<Stmt>,
    span: Span,
    kind: StmtKind,
    body: Option<Body>,
) -> Result<bool, NoMemory>
    ensures { IfOk result (λ pushed. Pushes (stmt_of span (form_with kind body)) stmts.old pushed stmts.new) }
{
    match body {
        None => Ok(false),
        Some(body) => {
            stmts.push(Stmt {
                kind,
                first: span.first,
                last: span.last,
                body,
            })?;
            Ok(true)
        }
    }
}

/// Puts a CREATE TABLE after the others. Where one list is all that follows its path, neither the word AS nor ON COMMIT
/// DROP is at depth 0, and they are not looked for.
#[inline(never)]
#[tactic(auto, using(crate::proofs::Listed::listed_table))]
fn push_table(
    alloc: Global,
    stmts: &mut Items<Stmt>,
    span: Span,
    kept: &Captures,
    left: &[Terminal],
) -> Result<bool, NoMemory>
    ensures { IfOk result (λ pushed. Pushes (stmt_of span (form_with (spec.table_kind left.now) (spec.table_body (at kept.now left.now)))) stmts.old pushed stmts.new) }
{
    match inside_alone(left) {
        Some(inside) => {
            let elems = elements_inside(alloc, inside)?;
            push(
                stmts,
                span,
                StmtKind::CreateTable,
                table_of(kept, false, elems),
            )
        }
        None => {
            let body = table_body(alloc, kept, left)?;
            push(stmts, span, table_kind(left), body)
        }
    }
}

/// Puts a statement after the others. `kept` is what was kept of its front, `left` what follows the front, and `query`
/// what follows its first word. CREATE TABLE has a way of its own, and the bodies that most statements have are made here.
#[inline(always)]
#[tactic(auto, unfolding(sql_tree::specs::Statement::kind_and_body, sql_tree::specs::Statement::body_by, sql_tree::specs::Statement::final_kind, sql_tree::specs::Statement::body_shape_of))]
fn push_body(
    alloc: Global,
    stmts: &mut Items<Stmt>,
    span: Span,
    query: &[Terminal],
    kind: StmtKind,
    kept: &Captures,
    left: &[Terminal],
) -> Result<bool, NoMemory>
    ensures { IfOk result (λ pushed. Pushes (stmt_of span (spec.kind_and_body query.now (kind, at kept.now left.now))) stmts.old pushed stmts.new) }
{
    if matches!(kind, StmtKind::CreateTable) {
        return push_table(alloc, stmts, span, kept, left);
    }
    let finished_kind = final_kind(kind, kept, left);
    match body_shape_of(kind) {
        BodyShape::Kept => push(stmts, span, finished_kind, Some(Body::Kept)),
        BodyShape::End => push(stmts, span, finished_kind, Some(end_body(kept))),
        BodyShape::Index => push(stmts, span, finished_kind, index_body(kept)),
        shape => push(
            stmts,
            span,
            finished_kind,
            read_body(alloc, shape, kind, query, kept, left)?,
        ),
    }
}

/// Puts a statement after the others, by its front: from its verb on, where WITH leads it. It is empty where it has no
/// terminal, and a SELECT of which nothing is known where it has no verb.
#[tactic(auto, unfolding(sql_tree::specs::Statement::form_of, sql_tree::specs::Statement::form_from))]
fn push_form(
    alloc: Global,
    stmts: &mut Items<Stmt>,
    span: Span,
    terminals: &[Terminal],
) -> Result<bool, NoMemory>
    ensures { IfOk result (λ pushed. Pushes (stmt_of span (spec.form_of terminals.now)) stmts.old pushed stmts.new) }
{
    if terminals.is_empty() {
        return push(stmts, span, StmtKind::Empty, Some(Body::Kept));
    }
    match from_verb(terminals) {
        [] => push(stmts, span, StmtKind::Select, Some(Body::Kept)),
        [first, rest @ ..] => {
            let mut kept = nothing_kept();
            match front_by(first.symbol, &mut kept, rest) {
                None => Ok(false),
                Some((kind, left)) => push_body(alloc, stmts, span, rest, kind, &kept, left),
            }
        }
    }
}

/// Puts the statement that these terminals are, its semicolon among them, after the others. `false` where they are
/// none.
#[tactic(auto, unfolding(sql_tree::specs::Statement::statement))]
pub fn push_statement(
    alloc: Global,
    stmts: &mut Items<Stmt>,
    terminals: &[Terminal],
) -> Result<bool, NoMemory>
    ensures { IfOk result (λ pushed. Pushes (spec.statement terminals.now) stmts.old pushed stmts.new) }
{
    if !is_sound(terminals) {
        return Ok(false);
    }
    push_form(
        alloc,
        stmts,
        span_of(terminals),
        without_semicolon(terminals),
    )
}
