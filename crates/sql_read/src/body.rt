//! What the form of one statement keeps: a body for each kind.

ghost use Rattle.std.specs.Prelude.{◌≡◌, IfOk, is_some};
ghost use Rattle.sql_tree.specs.Forms.{at};
ghost use Rattle.sql_tree.specs.declared.nodes.Body.TheVariants as body;
ghost use Rattle.sql_tree.specs.Statement as spec;
ghost use Rattle.sql_tree.specs.Tails as tails;
ghost use Rattle.sql_read.specs.Table.{table_of};

use sql_action::{
    drops_on_commit, has_keyword, read_actions_of, read_domain_constraints, read_elements,
};
use sql_tail::{
    is_full_vacuum, last_cascade, lock_mode, parameter, read_paths, reindex, vacuum_tables,
};
use sql_token::{Keyword, Terminal};
use sql_tree::forms::{BodyShape, Captures};
use sql_tree::{Body, Elem, NoMemory, StmtKind};
use sql_write::{read_table_write, read_targets, read_view_definition};
use sqlite_items::{Boxed, Items};
use std::alloc::Global;

/// What is kept of the statements of a kind.
#[inline(always)]
#[tactic(auto, unfolding(sql_tree::specs::Statement::body_shape_of))]
pub(crate) fn body_shape_of(kind: StmtKind) -> BodyShape
    ensures { result ≡ spec.body_shape_of kind }
{
    match kind {
        StmtKind::Commit | StmtKind::Rollback => BodyShape::End,
        StmtKind::CreateTable | StmtKind::CreateForeignTable => BodyShape::Table,
        StmtKind::SelectInto => BodyShape::Into,
        StmtKind::CreateIndex => BodyShape::Index,
        StmtKind::DropIndex | StmtKind::DropTable | StmtKind::DropType => BodyShape::Drop,
        StmtKind::Reindex => BodyShape::Reindex,
        StmtKind::AlterTable | StmtKind::AlterForeignTable | StmtKind::AlterIndex =>
            BodyShape::Alter,
        StmtKind::AlterView | StmtKind::AlterMaterializedView => BodyShape::Alter,
        StmtKind::AlterType | StmtKind::AlterDomain | StmtKind::AlterSequence => BodyShape::Alter,
        StmtKind::AlterFunction | StmtKind::AlterProcedure | StmtKind::AlterRoutine =>
            BodyShape::Alter,
        StmtKind::AlterAggregate | StmtKind::AlterPolicy | StmtKind::AlterTrigger =>
            BodyShape::Alter,
        StmtKind::AlterRole | StmtKind::AlterUser | StmtKind::AlterGroup => BodyShape::Alter,
        StmtKind::AlterDatabase | StmtKind::AlterSchema | StmtKind::AlterExtension =>
            BodyShape::Alter,
        StmtKind::AlterPublication | StmtKind::AlterSystem => BodyShape::Alter,
        StmtKind::AlterDefaultPrivileges => BodyShape::Alter,
        StmtKind::CreateDomain => BodyShape::Domain,
        StmtKind::CreateType | StmtKind::CreateSequence => BodyShape::Made,
        StmtKind::CreateView | StmtKind::CreateMaterializedView => BodyShape::View,
        StmtKind::CreateFunction | StmtKind::CreateProcedure | StmtKind::CreateAggregate =>
            BodyShape::Code,
        StmtKind::CreateTrigger | StmtKind::CreateRule => BodyShape::Code,
        StmtKind::Truncate => BodyShape::Truncate,
        StmtKind::Set => BodyShape::Setting,
        StmtKind::Lock => BodyShape::Locking,
        StmtKind::Refresh => BodyShape::Refresh,
        StmtKind::Vacuum => BodyShape::Vacuum,
        StmtKind::Cluster => BodyShape::Cluster,
        StmtKind::Insert | StmtKind::Update | StmtKind::Merge => BodyShape::Write,
        _ => BodyShape::Kept,
    }
}

/// CREATE TABLE, or CREATE TABLE AS where the word AS comes after its path.
pub(crate) fn table_kind(left: &[Terminal]) -> StmtKind
    ensures { result ≡ spec.table_kind left.now }
{
    if has_keyword(Keyword::AS, left) {
        StmtKind::CreateTableAs
    } else {
        StmtKind::CreateTable
    }
}

/// The kind of a statement, by that of its row and by what its form leaves open.
#[tactic(auto, unfolding(sql_tree::specs::Statement::final_kind))]
pub(crate) fn final_kind(kind: StmtKind, kept: &Captures, left: &[Terminal]) -> StmtKind
    ensures { result ≡ spec.final_kind kind (at kept.now left.now) }
{
    match kind {
        StmtKind::CreateTable => table_kind(left),
        _ => kind,
    }
}

// ---- bodies that take no memory

/// Of COMMIT and ROLLBACK.
pub(crate) fn end_body(kept: &Captures) -> Body
    ensures { result ≡ spec.end_body kept.now }
{
    Body::End {
        plain: !kept.not_plain,
        chain: kept.chain,
    }
}

/// Of CREATE INDEX.
pub(crate) fn index_body(kept: &Captures) -> Option<Body>
    ensures { result ≡ spec.index_body kept.now }
{
    let word = kept.word?;
    let path = kept.path?;
    Some(Body::Index {
        word,
        unique: kept.unique,
        concurrently: kept.concurrently,
        guarded: kept.guarded,
        name: kept.name,
        path,
    })
}

/// Of CREATE TYPE and CREATE SEQUENCE.
fn made_body(kept: &Captures) -> Option<Body>
    ensures { result ≡ spec.made_body kept.now }
{
    let path = kept.path?;
    Some(Body::Made {
        path,
        guarded: kept.guarded,
    })
}

/// Of CREATE FUNCTION, PROCEDURE, AGGREGATE, TRIGGER and RULE.
fn code_body(kept: &Captures) -> Body
    ensures { result ≡ body.Code kept.now.replace }
{
    Body::Code {
        replace: kept.replace,
    }
}

/// Of TRUNCATE.
fn truncate_body(left: &[Terminal]) -> Body
    ensures { result ≡ body.Truncate (tails.last_cascade left.now) }
{
    Body::Truncate {
        cascade: last_cascade(left),
    }
}

/// Of SET.
fn setting_body(left: &[Terminal]) -> Body
    ensures { result ≡ body.Setting (tails.parameter left.now) }
{
    Body::Setting {
        name: parameter(left),
    }
}

/// Of LOCK.
fn locking_body(left: &[Terminal]) -> Body
    ensures { result ≡ body.Locking (tails.lock_mode left.now) }
{
    Body::Locking {
        mode: lock_mode(left),
    }
}

/// Of REFRESH MATERIALIZED VIEW.
fn refresh_body(kept: &Captures) -> Body
    ensures { result ≡ body.Refresh (is_some kept.now.concurrently) }
{
    Body::Refresh {
        concurrently: kept.concurrently.is_some(),
    }
}

/// Of VACUUM.
fn vacuum_body(left: &[Terminal]) -> Body
    ensures { result ≡ spec.vacuum_body left.now }
{
    Body::Vacuum {
        full: is_full_vacuum(left),
        tables: vacuum_tables(left),
    }
}

/// Of CLUSTER.
fn cluster_body(kept: &Captures) -> Body
    ensures { result ≡ spec.cluster_body kept.now }
{
    Body::Cluster {
        table: kept.path,
        index: kept.name,
    }
}

// ---- bodies that hold lists

/// A table, by what its front kept, whether ON COMMIT DROP is in its tail, and the elements of its list.
pub(crate) fn table_of(kept: &Captures, on_commit_drop: bool, elems: Items<Elem>) -> Option<Body>
    ensures { result ≡ table_of kept.now on_commit_drop elems }
{
    let word = kept.word?;
    let path = kept.path?;
    Some(Body::Table {
        temp: kept.temp,
        guarded: kept.guarded,
        on_commit_drop,
        word,
        path,
        elems,
    })
}

/// Of CREATE TABLE and CREATE FOREIGN TABLE: its table, and the elements of its list.
pub(crate) fn table_body(
    alloc: Global,
    kept: &Captures,
    left: &[Terminal],
) -> Result<Option<Body>, NoMemory>
    ensures { IfOk result (λ body. body ≡ spec.table_body (at kept.now left.now)) }
{
    let elems = read_elements(alloc, left)?;
    Ok(table_of(kept, drops_on_commit(left), elems))
}

/// Of SELECT INTO: its table, and what its query gives, by what follows the word SELECT.
fn into_body(alloc: Global, kept: &Captures, query: &[Terminal]) -> Result<Option<Body>, NoMemory>
    ensures { IfOk result (λ body. body ≡ spec.into_body kept.now query.now) }
{
    let Some(path) = kept.path else {
        return Ok(None);
    };
    Ok(Some(Body::Into {
        path,
        targets: read_targets(alloc, query)?,
    }))
}

/// Of DROP INDEX, DROP TABLE and DROP TYPE: all paths.
fn drop_body(alloc: Global, kept: &Captures, left: &[Terminal]) -> Result<Option<Body>, NoMemory>
    ensures { IfOk result (λ body. body ≡ spec.drop_body (at kept.now left.now)) }
{
    let Some(word) = kept.word else {
        return Ok(None);
    };
    let Some(path) = kept.path else {
        return Ok(None);
    };
    Ok(Some(Body::Drop {
        word,
        concurrently: kept.concurrently.is_some(),
        guarded: kept.guarded,
        paths: read_paths(alloc, path, left)?,
    }))
}

/// Of ALTER: its path, where its form has one, and its actions. `None` where they are none of its kind.
fn alter_body(
    alloc: Global,
    kind: StmtKind,
    kept: &Captures,
    left: &[Terminal],
) -> Result<Option<Body>, NoMemory>
    ensures { IfOk result (λ body. body ≡ spec.alter_body kind (at kept.now left.now)) }
{
    match read_actions_of(alloc, kind, left)? {
        Some(actions) => Ok(Some(Body::Alter {
            path: kept.path,
            actions,
        })),
        None => Ok(None),
    }
}

/// Of CREATE DOMAIN: its constraints. `None` where its tail is no type and constraints.
fn domain_body(alloc: Global, left: &[Terminal]) -> Result<Option<Body>, NoMemory>
    ensures { IfOk result (λ body. body ≡ spec.domain_body left.now) }
{
    match read_domain_constraints(alloc, left)? {
        Some(constraints) => Ok(Some(Body::Domain { constraints })),
        None => Ok(None),
    }
}

/// Of CREATE VIEW and CREATE MATERIALIZED VIEW.
fn view_body(alloc: Global, kept: &Captures, left: &[Terminal]) -> Result<Body, NoMemory>
    ensures { IfOk result (λ body. body ≡ spec.view_body (at kept.now left.now)) }
{
    let definition = read_view_definition(alloc, kept.replace, left)?;
    Ok(Body::View(Boxed::new(alloc, definition)?))
}

/// Of INSERT, UPDATE and MERGE.
fn write_body(
    alloc: Global,
    kind: StmtKind,
    kept: &Captures,
    left: &[Terminal],
) -> Result<Option<Body>, NoMemory>
    ensures { IfOk result (λ body. body ≡ spec.write_body kind (at kept.now left.now)) }
{
    let Some(path) = kept.path else {
        return Ok(None);
    };
    let write = read_table_write(alloc, kind, path, left)?;
    Ok(Some(Body::Write(Boxed::new(alloc, write)?)))
}

/// What the form of a kind keeps, by what was kept and left of its front, and by `query`, what follows its first word.
/// `Ok(None)` where the tail is none of its kind.
#[inline(never)]
#[tactic(auto, unfolding(sql_tree::specs::Statement::body_by))]
pub(crate) fn read_body(
    alloc: Global,
    shape: BodyShape,
    kind: StmtKind,
    query: &[Terminal],
    kept: &Captures,
    left: &[Terminal],
) -> Result<Option<Body>, NoMemory>
    ensures { IfOk result (λ body. body ≡ spec.body_by shape kind (at kept.now left.now) query.now) }
{
    match shape {
        BodyShape::Kept => Ok(Some(Body::Kept)),
        BodyShape::End => Ok(Some(end_body(kept))),
        BodyShape::Table => table_body(alloc, kept, left),
        BodyShape::Into => into_body(alloc, kept, query),
        BodyShape::Index => Ok(index_body(kept)),
        BodyShape::Drop => drop_body(alloc, kept, left),
        BodyShape::Reindex => Ok(reindex(left)),
        BodyShape::Alter => alter_body(alloc, kind, kept, left),
        BodyShape::Domain => domain_body(alloc, left),
        BodyShape::Made => Ok(made_body(kept)),
        BodyShape::View => Ok(Some(view_body(alloc, kept, left)?)),
        BodyShape::Code => Ok(Some(code_body(kept))),
        BodyShape::Truncate => Ok(Some(truncate_body(left))),
        BodyShape::Setting => Ok(Some(setting_body(left))),
        BodyShape::Locking => Ok(Some(locking_body(left))),
        BodyShape::Refresh => Ok(Some(refresh_body(kept))),
        BodyShape::Vacuum => Ok(Some(vacuum_body(left))),
        BodyShape::Cluster => Ok(Some(cluster_body(kept))),
        BodyShape::Write => write_body(alloc, kind, kept, left),
    }
}
