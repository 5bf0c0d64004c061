//! The blocks that Alembic writes around a migration.

ghost use Rattle.std.specs.Prelude.{◌≡◌, ◌+◌, ◌≤◌, ◌++◌, length, IfOk, OnOk};
ghost use Rattle.std.specs.List.{flat_map};
ghost use Rattle.std.specs.Option.{option_map, option_to_list};
ghost use Rattle.lint_pass.specs.Blocks as spec;
ghost use Rattle.lint_pass.specs.Blocks.{blocks_of};
ghost use Rattle.lint_pass.specs.BlockWalk.{stamped, opening_after, block_from, block_by};

use crate::cursor::Cursor;
use crate::steps::Steps;
use lint_base::NoMemory;
use lint_ignore::{Body, Parse, Stmt, StmtKind};
use lint_transaction::name_at;
use sql_token::Span;
use std::alloc::Global;
use std::sync::ledger::Ledger;

/// The table in which Alembic keeps the version that a database is at.
const VERSION_TABLE: &str = "alembic_version";

/// A block of statements, by the numbers of its first and its last one, counted from 0: from a BEGIN to the next COMMIT or
/// ROLLBACK, with an UPDATE of the table `alembic_version` between them.
#[derive(Debug, Clone, Copy, PartialEq, Eq)]
pub struct Block {
    pub first: u32,
    pub last: u32,
}

/// A BEGIN after which no other one and no end is there yet, and whether the version table was written after it.
#[derive(Clone, Copy)]
struct Opening {
    begin: u32,
    is_stamped: bool,
}

/// Whether the statement is a COMMIT or a ROLLBACK, of any form.
pub fn is_end(s: &Stmt) -> bool
    ensures { result ≡ spec.is_end_kind s.now.kind }
{
    match s.kind {
        StmtKind::Commit | StmtKind::Rollback => true,
        _ => false,
    }
}

/// The path of the table that the statement writes.
fn written(s: &Stmt) -> Option<Span>
    ensures { result ≡ spec.written_by s.now.body }
{
    match &s.body {
        Body::Write(write) => Some(write.get().path),
        _ => None,
    }
}

/// Whether the last name of the path is that of the version table.
fn is_version_table(alloc: Global, p: &Parse<'_>, path: Option<Span>) -> Result<bool, NoMemory>
    ensures { IfOk result (λ b. b ≡ spec.is_version_table p.now path) }
{
    match path {
        Some(path) => {
            let name = name_at(p, path.last).folded(alloc)?;
            Ok(name.as_str().eq_ignore_ascii_case(VERSION_TABLE))
        }
        None => Ok(false),
    }
}

/// Whether the statement is an UPDATE.
fn is_update(s: &Stmt) -> bool
    ensures { result ≡ spec.is_update_kind s.now.kind }
{
    match s.kind {
        StmtKind::Update => true,
        _ => false,
    }
}

/// Adds the block that a COMMIT or a ROLLBACK, which is statement `i`, ends.
fn push_block(blocks: &mut Vec<Block>, i: u32, opening: Option<Opening>) -> Result<(), NoMemory>
    ensures { OnOk result (blocks.new.items ≡ blocks.old.items ++ flat_map (block_from i) (option_to_list opening)) }
{
    match opening {
        Some(
            Opening {
                begin,
                is_stamped: true,
            },
        ) => {
            blocks.push(Block {
                first: begin,
                last: i,
            })?;
            Ok(())
        }
        _ => Ok(()),
    }
}

/// The same BEGIN after an UPDATE, which may write the version that a database is at.
fn stamped(
    alloc: Global,
    p: &Parse<'_>,
    s: &Stmt,
    opening: Option<Opening>,
) -> Result<Option<Opening>, NoMemory>
    ensures { IfOk result (λ o. o ≡ option_map (stamped (spec.is_version_table p.now (spec.written_by s.now.body))) opening) }
{
    match opening {
        Some(Opening { begin, is_stamped }) => Ok(Some(Opening {
            begin,
            is_stamped: is_stamped || is_version_table(alloc, p, written(s))?,
        })),
        None => Ok(None),
    }
}

/// Goes after statement `i`: what is known of the block that may have begun, and the blocks that have ended.
#[tactic(auto, using(crate::proofs::BlockLaws::not_stamped))]
fn go_after(
    alloc: Global,
    p: &Parse<'_>,
    s: &Stmt,
    i: u32,
    opening: &mut Option<Opening>,
    blocks: &mut Vec<Block>,
) -> Result<(), NoMemory>
    ensures opening { OnOk result (opening.new ≡ opening_after p.now s.now i opening.old) }
    ensures found { OnOk result (blocks.new.items ≡ blocks.old.items ++ block_by s.now i opening.old) }
{
    if s.kind == StmtKind::Begin {
        *opening = Some(Opening {
            begin: i,
            is_stamped: false,
        });
    } else if is_end(s) {
        push_block(blocks, i, *opening)?;
        *opening = None;
    } else if is_update(s) {
        *opening = stamped(alloc, p, s, *opening)?;
    }
    Ok(())
}

/// The blocks of the cursor's tree, by place. The cursor comes before the first statement, and goes over all of them.
pub fn find_blocks<L: Ledger>(
    alloc: Global,
    cursor: &mut Cursor<'_, '_>,
    steps: &mut Steps<L>,
) -> Result<Vec<Block>, NoMemory>
    requires { cursor.old.next ≡ 0 }
    ensures tree { cursor.new.tree ≡ cursor.old.tree }
    ensures blocks { IfOk result (λ blocks. blocks.items ≡ blocks_of cursor.old.tree) }
    ensures steps { steps.new ≤ steps.old + length cursor.old.tree.stmts }
{
    let p = cursor.file();
    let mut blocks = Vec::new(alloc);
    let mut opening = None;
    while let Some((i, s)) = cursor.next(steps) {
        go_after(alloc, p, s, i, &mut opening, &mut blocks)?;
    }
    Ok(blocks)
}
