//! The files that a text holds.

use crate::files::{CaseFiles, Entry, Held};
use case_format::Fault;
use std::alloc::Global;

/// What a line begins.
#[derive(Clone, Copy)]
enum Head {
    File,
    Folder,
    Unreadable,
}

// What a line begins, and what comes after that.
fn head_of(line: &[u8]) -> Option<(Head, &[u8])> {
    match line {
        [b'>', b' ', name @ ..] => Some((Head::File, name)),
        [b'>', b'/', b' ', name @ ..] => Some((Head::Folder, name)),
        [b'>', b'!', b' ', name @ ..] => Some((Head::Unreadable, name)),
        _ => None,
    }
}

// A name, without the line feed after it.
fn name_of(alloc: Global, line: &[u8]) -> Result<String, Fault> {
    let name = match line {
        [name @ .., b'\n'] => name,
        _ => line,
    };
    match std::str::from_utf8(name) {
        Ok(name) => Ok(String::from_str(alloc, name)?),
        Err(_) => Err(Fault::Escape),
    }
}

fn opened(alloc: Global, head: Head, name: &[u8]) -> Result<Entry, Fault> {
    let name = name_of(alloc, name)?;
    let held = match head {
        Head::File => Held::Bytes(Vec::new(alloc)),
        Head::Folder => Held::Folder,
        Head::Unreadable => Held::Unreadable,
    };
    Ok(Entry { name, held })
}

// Adds a line to the file that was begun last, or to standard input where there is none.
fn push_line(input: &mut Vec<u8>, entries: &mut [Entry], line: &[u8]) -> Result<(), Fault> {
    match entries {
        [] => input.extend_from_slice(line)?,
        [.., last] => {
            if let Held::Bytes(bytes) = &mut last.held {
                bytes.extend_from_slice(line)?;
            }
        }
    }
    Ok(())
}

/// Standard input and the files that a text holds. Used by tests only; no contract.
pub fn read_files(alloc: Global, text: &[u8]) -> Result<(Vec<u8>, CaseFiles), Fault> {
    let mut input = Vec::new(alloc);
    let mut entries = Vec::new(alloc);
    for line in text.split_inclusive(|byte| *byte == b'\n') {
        match head_of(line) {
            Some((head, name)) => entries.push(opened(alloc, head, name)?)?,
            None => push_line(&mut input, entries.as_mut_slice(), line)?,
        }
    }
    Ok((input, CaseFiles::new(entries)))
}
