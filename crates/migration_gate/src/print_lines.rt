//! The parts of the lines.

ghost use Rattle.std.specs.Prelude.{◌≡◌, ◌++◌, codes, OnOk};
ghost use Rattle.migration_gate.specs.PrintedVerdict.{printed_at, printed_why, printed_work};

use crate::Why;
use squawk_linter::{NoMemory, Work};
use squawk_print_locks::{push_lock, push_number, push_table};
use std::alloc::Global;

/// Adds the line of a work.
pub(crate) fn push_work(alloc: Global, to: &mut Vec<u8>, work: &Work) -> Result<(), NoMemory>
    ensures { OnOk result (to.new.items ≡ to.old.items ++ printed_work work.now) }
{
    to.extend_from_slice(b"  ")?;
    push_number(to, work.stmt as usize)?;
    to.extend_from_slice(b": ")?;
    push_lock(alloc, to, work.lock)?;
    to.extend_from_slice(b" ")?;
    push_table(to, work.path)?;
    to.extend_from_slice(b"\n")?;
    Ok(())
}

/// Adds what is at a place.
fn push_at(to: &mut Vec<u8>, what: &str, at: u32) -> Result<(), NoMemory>
    ensures { OnOk result (to.new.items ≡ to.old.items ++ printed_at what.now at) }
{
    to.extend_from_slice(what.as_bytes())?;
    to.extend_from_slice(b" at ")?;
    push_number(to, at as usize)
}

fn push_not_plain(to: &mut Vec<u8>) -> Result<(), NoMemory>
    ensures { OnOk result (to.new.items ≡ to.old.items ++ codes "not plain") }
{
    to.extend_from_slice(b"not plain")?;
    Ok(())
}

/// Adds why a file does not pass.
pub(crate) fn push_why(to: &mut Vec<u8>, why: &Why) -> Result<(), NoMemory>
    ensures { OnOk result (to.new.items ≡ to.old.items ++ printed_why why.now) }
{
    match why {
        Why::Unterminated { at } => push_at(to, "unterminated", *at),
        Why::Syntax { at } => push_at(to, "syntax", *at),
        Why::Ignored { at } => push_at(to, "ignore comment", *at),
        Why::NotPlain => push_not_plain(to),
        Why::Found { at, rule } => push_at(to, rule.name(), *at),
    }
}
