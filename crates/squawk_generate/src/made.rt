//! The made text.
ghost use Rattle.std.specs.Prelude.{◌≡◌, ◌++◌, ◌*◌, ◌≤◌, length, IfOk, OnOk, IsUtf8};
ghost use Rattle.squawk_generate.specs.Made as spec;

use itoa::Buffer;
use lint_base::NoMemory;
use std::alloc::Global;

/// How many bytes are kept ready for each group. Four in turn take less for each, while their numbers have nine digits at
/// most.
const ROOM: usize = 64;

#[tactic(auto, unfolding(crate::specs::Made::index_on))]
fn push_index_on(text: &mut Vec<u8>, number: &[u8]) -> Result<(), NoMemory>
    ensures { OnOk result (text.new.items ≡ text.old.items ++ spec.index_on number.now) }
{
    text.extend_from_slice(b"CREATE INDEX i")?;
    text.extend_from_slice(number)?;
    text.extend_from_slice(b" ON t")?;
    text.extend_from_slice(number)?;
    text.extend_from_slice(b" (id);")?;
    Ok(())
}

fn push_table(text: &mut Vec<u8>, number: &[u8]) -> Result<(), NoMemory>
    ensures { OnOk result (text.new.items ≡ text.old.items ++ spec.table_group number.now) }
{
    text.extend_from_slice(b"BEGIN; CREATE TABLE t")?;
    text.extend_from_slice(number)?;
    text.extend_from_slice(b" (id int); ")?;
    push_index_on(text, number)?;
    text.extend_from_slice(b" COMMIT;\n")?;
    Ok(())
}

fn push_index(text: &mut Vec<u8>, number: &[u8]) -> Result<(), NoMemory>
    ensures { OnOk result (text.new.items ≡ text.old.items ++ spec.index_group number.now) }
{
    push_index_on(text, number)?;
    text.extend_from_slice(b"\n")?;
    Ok(())
}

fn push_constraint(text: &mut Vec<u8>, number: &[u8]) -> Result<(), NoMemory>
    ensures { OnOk result (text.new.items ≡ text.old.items ++ spec.constraint_group number.now) }
{
    text.extend_from_slice(b"ALTER TABLE t")?;
    text.extend_from_slice(number)?;
    text.extend_from_slice(b" ADD CONSTRAINT c")?;
    text.extend_from_slice(number)?;
    text.extend_from_slice(b" CHECK (id > 0);\n")?;
    Ok(())
}

fn push_column(text: &mut Vec<u8>, number: &[u8]) -> Result<(), NoMemory>
    ensures { OnOk result (text.new.items ≡ text.old.items ++ spec.column_group number.now) }
{
    text.extend_from_slice(b"ALTER TABLE t")?;
    text.extend_from_slice(number)?;
    text.extend_from_slice(b" ADD COLUMN a")?;
    text.extend_from_slice(number)?;
    text.extend_from_slice(b" text;\n")?;
    Ok(())
}

#[tactic(auto, unfolding(crate::specs::Made::group))]
fn push_group(text: &mut Vec<u8>, i: u32) -> Result<(), NoMemory>
    ensures { OnOk result (text.new.items ≡ text.old.items ++ spec.group i) }
{
    let mut buffer = Buffer::new();
    let number = buffer.format(i).as_bytes();
    match i % 4 {
        0 => push_table(text, number),
        1 => push_index(text, number),
        2 => push_constraint(text, number),
        _ => push_column(text, number),
    }
}

/// A text of `n` groups of statements, which are of four kinds in turn: a new table with its index in a transaction, an
/// index, a constraint and a column on a table that exists. The number of a group, from 0, is part of each name in it.
/// No group takes more than 128 bytes, so 100000 of them take far less than 2^32.
///
/// The error comes when memory runs out.
pub fn made_text(alloc: Global, n: u32) -> Result<Vec<u8>, NoMemory>
    ensures value { IfOk result (λ text. text.items ≡ spec.made n) }
    ensures utf8 { IfOk result (λ text. IsUtf8 text.items) }
    ensures short { IfOk result (λ text. length text.items ≤ 128 * n) }
{
    let mut text = Vec::with_capacity(alloc, n as usize * ROOM)?;
    for i in 0..n {
        push_group(&mut text, i)?;
    }
    Ok(text)
}
