//! The work that a text does under locks.

ghost use Rattle.std.specs.Prelude.{◌≡◌, ◌+◌, ◌-◌, ◌++◌, ◌<◌, ◌≤◌, ◌^◌, Bool, IfOk, OnOk, length};
ghost use Rattle.sql_tree.specs.Statement.{IsTree};
ghost use Rattle.lint_pass.specs.lint_transaction.Transaction.{stmt_at};
ghost use Rattle.lock_machine.specs.Machine as state;
ghost use Rattle.lock_machine.specs.Machine.{before};
ghost use Rattle.lock_machine.specs.MachineWalk.{IsMachine};
ghost use Rattle.lock_machine.specs.Works.{is_assumed, range_of, work_if, works, works_at, works_of, works_of_actions};
ghost use Rattle.std.specs.Option.{option_map};

use crate::action_lock::action_lock;
use crate::index_lock::{index_lock, indexed_table};
use crate::machine::Machine;
use lint_lock::LockKind;
use lint_pass::{
    LinterSettings, NoMemory, Span, TextRange, altered_path, has_disable_assume_in_transaction,
    table_actions,
};
use sql_tree::{Action, Parse, Stmt};
use std::alloc::Global;

/// Work that a statement does to a table under a lock, which it holds for as long as the table is long. Where the table is old,
/// who uses it waits for all that time: for writes to it, and under ACCESS EXCLUSIVE for reads as well.
///
/// PostgreSQL manual, section 13.3.1, "Table-Level Locks".
#[derive(Clone, Copy, Debug, PartialEq, Eq)]
pub struct Work {
    /// The number of the statement, counted from 0.
    pub stmt: u32,
    /// The bytes of the path by which the statement names the table. DROP INDEX names none, nor does REINDEX but of a table.
    pub path: Option<TextRange>,
    /// The lock that is held while the work is done.
    pub lock: LockKind,
    /// The table is not named, or was not created in the transaction that the statement runs in: others may use it.
    pub old: bool,
}

fn range_of(p: &Parse<'_>, path: Option<Span>) -> Option<TextRange>
    ensures { result ≡ option_map (range_of p.now) path }
{
    match path {
        Some(path) => Some(p.span_range(path.first, path.last)),
        None => None,
    }
}

/// Adds work of statement `stmt` on the table of a path, where there is any.
fn push_work(
    list: &mut Vec<Work>,
    p: &Parse<'_>,
    machine: &Machine,
    stmt: u32,
    path: Option<Span>,
    lock: Option<LockKind>,
) -> Result<(), NoMemory>
    requires { machine.now.number < 2 ^ 32 - 1 }
    ensures { OnOk result ((m : state.Machine) → IsMachine p.now m machine.now
        → list.new.items ≡ list.old.items ++ work_if p.now m stmt path lock) }
{
    if let Some(lock) = lock {
        list.push(Work {
            stmt,
            path: range_of(p, path),
            lock,
            old: machine.is_old(p, path),
        })?;
    }
    Ok(())
}

/// Adds the work of the actions of an ALTER TABLE.
fn push_actions(
    list: &mut Vec<Work>,
    p: &Parse<'_>,
    set: &LinterSettings,
    machine: &Machine,
    stmt: u32,
    path: Option<Span>,
    actions: &[Action],
) -> Result<(), NoMemory>
    requires { machine.now.number < 2 ^ 32 - 1 }
    ensures { OnOk result ((m : state.Machine) → IsMachine p.now m machine.now
        → list.new.items ≡ list.old.items ++ works_of_actions set.now p.now m stmt path actions.now) }
{
    for a in actions {
        push_work(list, p, machine, stmt, path, action_lock(p, set, a))?;
    }
    Ok(())
}

/// Adds the work of statement `stmt`.
fn push_works(
    list: &mut Vec<Work>,
    p: &Parse<'_>,
    set: &LinterSettings,
    machine: &Machine,
    stmt: u32,
    s: &Stmt,
) -> Result<(), NoMemory>
    requires { machine.now.number < 2 ^ 32 - 1 }
    ensures { OnOk result ((m : state.Machine) → IsMachine p.now m machine.now
        → list.new.items ≡ list.old.items ++ works_of set.now p.now m stmt s.now) }
{
    push_work(list, p, machine, stmt, indexed_table(s), index_lock(s))?;
    push_actions(
        list,
        p,
        set,
        machine,
        stmt,
        altered_path(s),
        table_actions(s),
    )
}

/// Adds the work of statement `i`, and advances past it.
fn step(
    list: &mut Vec<Work>,
    machine: &mut Machine,
    p: &Parse<'_>,
    set: &LinterSettings,
    i: u32,
    s: &Stmt,
) -> Result<(), NoMemory>
    requires stmt { s.now ≡ stmt_at p.now i }
    requires few { machine.old.number ≤ i }
    requires more { i < 2 ^ 32 - 1 }
    ensures few { machine.new.number ≤ i + 1 }
    ensures kept { OnOk result ((assumed : Bool) → IsMachine p.now (before assumed p.now i) machine.old
        → IsMachine p.now (before assumed p.now (i + 1)) machine.new) }
    ensures listed { OnOk result (IsMachine p.now (before (is_assumed set.now p.now) p.now i) machine.old
        → list.new.items ≡ list.old.items ++ works_at set.now p.now i) }
{
    push_works(list, p, set, machine, i, s)?;
    machine.update(p, s)
}

/// Whether a transaction is open before the first statement.
fn is_assumed(p: &Parse<'_>, set: &LinterSettings) -> bool
    ensures { result ≡ is_assumed set.now p.now }
{
    set.assume_in_transaction && !has_disable_assume_in_transaction(p)
}

/// The statements of a tree, of which there are fewer than 2^32.
fn statements<'a>(p: &'a Parse<'_>) -> &'a [Stmt]
    ensures value { result.now ≡ p.now.stmts }
    ensures few { length result.now < 2 ^ 32 }
{
    p.tree().stmts.as_slice()
}

/// The work that the statements of a text do under locks, in order, one for each action of an ALTER TABLE at most:
///
/// - CREATE INDEX and DROP INDEX without CONCURRENTLY, and REINDEX that is not concurrent, or whose option CONCURRENTLY has a
///   value. DROP INDEX names no table, and REINDEX only by the word TABLE.
/// - A constraint that is added to a table, neither NOT VALID nor by an index.
/// - A column that is added with UNIQUE, PRIMARY KEY, REFERENCES or GENERATED, or with a DEFAULT that is written into each row.
/// - A change of a column's type.
/// - DETACH PARTITION with neither CONCURRENTLY nor FINALIZE.
///
/// A transaction is open at the start where the settings assume one, unless a comment of the text says that none is to be assumed.
/// A DEFAULT is judged by their version and their functions. Each table is found by a hash of its names, so a long text takes one
/// walk. The error comes when memory runs out, and no other way.
pub fn lock_work(
    alloc: Global,
    file: &Parse<'_>,
    set: &LinterSettings,
) -> Result<Vec<Work>, NoMemory>
    ensures { IfOk result (λ list. list.items ≡ works file.now set.now) }
{
    let stmts = statements(file);
    let count = stmts.len() as u32;
    let assumed = is_assumed(file, set);
    let mut machine = Machine::new(alloc, assumed);
    let mut list = Vec::new(alloc);
    for i in 0..count {
        step(&mut list, &mut machine, file, set, i, &stmts[i as usize])?;
    }
    Ok(list)
}
