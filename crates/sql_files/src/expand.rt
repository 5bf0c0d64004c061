//! The files that words stand for.
ghost use Rattle.std.specs.Prelude.{◌≡◌, ◌≤◌, ◌++◌, IfOk, OnOk, map, string_bytes};
ghost use Rattle.devices.specs.Contents.{KeepsContents};
ghost use Rattle.sql_files.specs.Named.{Adds, AreNamed};

use devices::{FileError, FileStore, NoMemory, sql_names};
use squawk_words::Words;
use std::alloc::Global;

// Adds names.
fn push_all(names: &mut Words, more: &[String]) -> Result<(), NoMemory>
    ensures { OnOk result (names.new ≡ names.old ++ map string_bytes more.now) }
{
    for name in more {
        names.push(name.as_str())?;
    }
    Ok(())
}

// Adds the names that a word stands for.
fn push_named<F: FileStore>(
    alloc: Global,
    files: &mut F,
    names: &mut Words,
    word: &str,
) -> Result<(), NoMemory>
    ensures adds { OnOk result (Adds (F.content files.old word.now) (F.faults files.old) (F.faults files.new) word.now names.old names.new) }
    ensures kept { KeepsContents (F.content files.old) (F.content files.new) }
    ensures later { F.faults files.old ≤ F.faults files.new }
{
    match files.list(alloc, word) {
        Ok(Some(inner)) => {
            let kept = sql_names(alloc, inner)?;
            push_all(names, kept.as_slice())
        }
        Ok(None) => names.push(word),
        Err(FileError::NoMemory) => Err(NoMemory),
        Err(FileError::Missing | FileError::Fault | FileError::TooLong) => names.push(word),
    }
}

/// The names of the files that words stand for, in their order: a folder stands for the files in it, at any depth, whose names end in
/// `.sql`, in order of their bytes; a folder that can't be read stands for itself, so that reading it then fails too. The error comes when
/// memory runs out.
pub fn expanded<F: FileStore>(
    alloc: Global,
    files: &mut F,
    words: &Words,
) -> Result<Words, NoMemory>
    ensures named { IfOk result (λ names. AreNamed (F.content files.old) (F.faults files.old) (F.faults files.new) words.now names) }
    ensures kept { KeepsContents (F.content files.old) (F.content files.new) }
    ensures later { F.faults files.old ≤ F.faults files.new }
{
    let mut names = Words::new(alloc);
    for i in 0..words.len() {
        push_named(alloc, files, &mut names, words.get(i))?;
    }
    Ok(names)
}
