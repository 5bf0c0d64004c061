//! The files that words stand for.
ghost use Rattle.std.specs.Prelude.{◌≤◌, IfOk};
ghost use Rattle.sql_files.specs.devices.Contents.{KeepsContents};
ghost use Rattle.gate_files.specs.Named.{AreFilesOf};

use crate::order::{Order, ordered};
use checked_file::NoMemory;
use file_choice::chosen;
use sql_files::{FileStore, Words, expanded};
use std::alloc::Global;

/// The names of the files that words stand for, in an order: a folder stands for the files in it, at any depth, whose names end in `.sql`.
/// A name that comes twice counts at its first place. The error comes when memory runs out.
pub fn named_files<F: FileStore>(
    alloc: Global,
    files: &mut F,
    order: Order,
    words: &Words,
) -> Result<Words, NoMemory>
    ensures named { IfOk result (λ names. AreFilesOf (F.content files.old) (F.faults files.old) (F.faults files.new) order words.now names) }
    ensures kept { KeepsContents (F.content files.old) (F.content files.new) }
    ensures later { F.faults files.old ≤ F.faults files.new }
{
    let given = expanded(alloc, files, words)?;
    let names = ordered(alloc, order, given)?;
    let patterns = Words::new(alloc);
    chosen(alloc, &patterns, &names)
}
