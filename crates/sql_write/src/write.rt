//! What INSERT, UPDATE or MERGE writes (PostgreSQL manual, INSERT, UPDATE, MERGE).

ghost use Rattle.std.specs.Prelude.{◌≡◌, IfOk};
ghost use Rattle.sql_tree.specs.Write as spec;

use crate::list::lists_of;
use crate::set::sets_of;
use sql_tree::{NoMemory, Span, StmtKind, TableWrite, Terminal};
use std::alloc::Global;

/// What INSERT, UPDATE or MERGE writes, by its table and what follows: each SET clause, and each list of columns. Of
/// any other kind, nothing.
#[tactic(auto, unfolding(sql_tree::specs::Write::table_write))]
pub fn read_table_write(
    alloc: Global,
    kind: StmtKind,
    path: Span,
    tail: &[Terminal],
) -> Result<TableWrite, NoMemory>
    ensures { IfOk result (λ w. w ≡ spec.table_write kind path tail.now) }
{
    let sets = sets_of(alloc, kind, tail)?;
    let lists = lists_of(alloc, kind, tail)?;
    Ok(TableWrite { path, sets, lists })
}
