//! The lines of work under locks.
ghost use Rattle.std.specs.Prelude.{◌≡◌, ◌++◌, codes, flat_map, IfOk, OnOk};
ghost use Rattle.lock_machine.specs.lint_lock.Lock.{printed};
ghost use Rattle.squawk_print_locks.specs.PrintedLocks as spec;

use lock_machine::{LockKind, Work};
use squawk_print::{NoMemory, TextRange, push_number};
use std::alloc::Global;

/// How many bytes are kept ready for each work.
const ROOM: usize = 64;

fn push_place(to: &mut Vec<u8>, path: TextRange) -> Result<(), NoMemory>
    ensures { OnOk result (to.new.items ≡ to.old.items ++ spec.printed_place path) }
{
    to.extend_from_slice(b"on ")?;
    push_number(to, path.start().raw() as usize)?;
    to.extend_from_slice(b"..")?;
    push_number(to, path.end().raw() as usize)
}

fn push_unnamed(to: &mut Vec<u8>) -> Result<(), NoMemory>
    ensures { OnOk result (to.new.items ≡ to.old.items ++ codes "unnamed") }
{
    to.extend_from_slice(b"unnamed")?;
    Ok(())
}

/// Adds the place of a table's path, or `unnamed` where no path names the table.
pub fn push_table(to: &mut Vec<u8>, path: Option<TextRange>) -> Result<(), NoMemory>
    ensures { OnOk result (to.new.items ≡ to.old.items ++ spec.printed_table path) }
{
    match path {
        Some(path) => push_place(to, path),
        None => push_unnamed(to),
    }
}

/// Adds the words of a lock.
pub fn push_lock(alloc: Global, to: &mut Vec<u8>, lock: LockKind) -> Result<(), NoMemory>
    ensures { OnOk result (to.new.items ≡ to.old.items ++ printed lock) }
{
    let words = format!(in alloc; "{lock}")?;
    to.extend_from_slice(words.as_bytes())?;
    Ok(())
}

fn age_of(old: bool) -> &'static str
    ensures { result.now ≡ spec.printed_age old }
{
    if old { "old" } else { "new" }
}

fn plain_of(plain: bool) -> &'static str
    ensures { result.now ≡ spec.printed_plain plain }
{
    if plain { "plain: yes\n" } else { "plain: no\n" }
}

fn push_head(alloc: Global, to: &mut Vec<u8>, work: &Work) -> Result<(), NoMemory>
    ensures { OnOk result (to.new.items ≡ to.old.items ++ spec.printed_head work.now) }
{
    to.extend_from_slice(b"work ")?;
    push_number(to, work.stmt as usize)?;
    to.extend_from_slice(b": ")?;
    push_lock(alloc, to, work.lock)?;
    to.extend_from_slice(b" ")?;
    Ok(())
}

/// Adds the line of a work.
#[tactic(auto, unfolding(crate::specs::PrintedLocks::printed_work))]
fn push_work(alloc: Global, to: &mut Vec<u8>, work: &Work) -> Result<(), NoMemory>
    ensures { OnOk result (to.new.items ≡ to.old.items ++ spec.printed_work work.now) }
{
    push_head(alloc, to, work)?;
    push_table(to, work.path)?;
    to.extend_from_slice(b" ")?;
    to.extend_from_slice(age_of(work.old).as_bytes())?;
    to.extend_from_slice(b"\n")?;
    Ok(())
}

fn push_works(alloc: Global, to: &mut Vec<u8>, works: &[Work]) -> Result<(), NoMemory>
    ensures { OnOk result (to.new.items ≡ to.old.items ++ flat_map spec.printed_work works.now) }
{
    for work in works {
        push_work(alloc, to, work)?;
    }
    Ok(())
}

/// A line for each work, in order, and one that says whether the text is plain. The error comes when memory runs out.
pub(crate) fn print_locks(alloc: Global, works: &[Work], plain: bool) -> Result<Vec<u8>, NoMemory>
    ensures { IfOk result (λ bytes. bytes.items ≡ spec.printed_locks works.now plain) }
{
    let mut to = Vec::with_capacity(alloc, works.len().saturating_mul(ROOM).saturating_add(16))?;
    push_works(alloc, &mut to, works)?;
    to.extend_from_slice(plain_of(plain).as_bytes())?;
    Ok(to)
}
