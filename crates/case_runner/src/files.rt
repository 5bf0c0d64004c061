//! The files of a case.
ghost use Rattle.squawk_cli.specs.devices.Contents.{Unknown};

use squawk_cli::{FileError, FileStore};
use std::alloc::{AllocError, Global};

/// What a name holds.
#[derive(Drop)]
pub(crate) enum Held {
    Bytes(Vec<u8>),
    Folder,
    Unreadable,
}

/// A name, and what it holds.
#[derive(Drop)]
pub(crate) struct Entry {
    pub(crate) name: String,
    pub(crate) held: Held,
}

/// The files of a case. No contract says what they hold.
#[derive(Drop)]
pub struct CaseFiles {
    entries: Vec<Entry>,
    faults: u64,
}

// Whether a file is in a folder.
fn is_in(name: &str, folder: &str) -> bool {
    match name.strip_prefix(folder) {
        Some(rest) => rest.starts_with('/'),
        None => false,
    }
}

fn found<'a>(entries: &'a [Entry], name: &str) -> Option<&'a Entry> {
    for entry in entries {
        if entry.name.as_str() == name {
            return Some(entry);
        }
    }
    None
}

// The names of the files in a folder.
fn names_in(alloc: Global, entries: &[Entry], folder: &str) -> Result<Vec<String>, AllocError> {
    let mut names = Vec::new(alloc);
    for entry in entries {
        if is_in(entry.name.as_str(), folder) {
            names.push(String::from_str(alloc, entry.name.as_str())?)?;
        }
    }
    Ok(names)
}

impl CaseFiles {
    pub(crate) fn new(entries: Vec<Entry>) -> CaseFiles {
        CaseFiles { entries, faults: 0 }
    }
}

impl FileStore for CaseFiles {
    ghost content = { λ s name. Unknown };

    ghost faults = { λ s. s.faults };

    fn is_there(&self, name: &str) -> bool {
        found(self.entries.as_slice(), name).is_some()
    }

    fn read(&mut self, alloc: Global, name: &str) -> Result<Vec<u8>, FileError> {
        let Some(entry) = found(self.entries.as_slice(), name) else {
            return Err(FileError::Missing);
        };
        match &entry.held {
            Held::Bytes(bytes) => {
                if bytes.len() >= 4294967296 {
                    return Err(FileError::TooLong);
                }
                match Vec::from_slice(alloc, bytes.as_slice()) {
                    Ok(all) => Ok(all),
                    Err(_) => Err(FileError::NoMemory),
                }
            }
            Held::Folder | Held::Unreadable => {
                self.faults = self.faults.saturating_add(1);
                Err(FileError::Fault)
            }
        }
    }

    fn list(&mut self, alloc: Global, name: &str) -> Result<Option<Vec<String>>, FileError> {
        let Some(entry) = found(self.entries.as_slice(), name) else {
            return Ok(None);
        };
        match &entry.held {
            Held::Folder => match names_in(alloc, self.entries.as_slice(), name) {
                Ok(names) => Ok(Some(names)),
                Err(_) => Err(FileError::NoMemory),
            },
            Held::Bytes(_) | Held::Unreadable => Ok(None),
        }
    }
}
