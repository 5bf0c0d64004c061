//! Files and folders in memory that fail at chosen calls.
ghost use Rattle.std.specs.Prelude.{◌≡◌, IfOk, map, option_map, string_bytes};
ghost use Rattle.devices.specs.MemoryFiles.{beside, content_by, content_in};

use crate::store::{FileError, FileStore};
use std::alloc::{AllocError, Global};
use std::marker::Model;

/// Files and folders in memory, by their names. The calls whose numbers are listed fail, counted from 0.
#[derive(Drop)]
pub struct MemFiles<'a> {
    files: &'a [(&'a str, &'a [u8])],
    folders: &'a [(&'a str, &'a [&'a str])],
    fails: &'a [u32],
    calls: u32,
    faults: u64,
}

impl<'a> Model for MemFiles<'a> {
    ghost use Rattle.std.specs.Prelude.{map};
    ghost use Rattle.devices.specs.MemoryFiles.{FilesInMemory};

    ghost Value = { FilesInMemory };

    ghost view = { λ s. record {
      files = map (λ file. (file.0.now, file.1.now)) s.files.now;
      folders = map (λ folder. (folder.0.now, map (λ name. name.now) folder.1.now)) s.folders.now;
      fails = s.fails.now;
      calls = s.calls;
      faults = s.faults;
    } };
}

// What a name holds.
#[derive(Clone, Copy)]
enum Held<'a> {
    Bytes(&'a [u8]),
    Names(&'a [&'a str]),
    Nothing,
}

// The bytes of the first file of a name.
fn bytes_of<'a>(files: &[(&'a str, &'a [u8])], name: &str) -> Option<&'a [u8]>
    ensures { option_map (λ all. all.now) result ≡ beside (map (λ file. (file.0.now, file.1.now)) files.now) name.now }
{
    for (held, bytes) in files {
        if *held == name {
            return Some(bytes);
        }
    }
    None
}

// The names in the first folder of a name.
fn names_of<'a>(folders: &[(&'a str, &'a [&'a str])], name: &str) -> Option<&'a [&'a str]>
    ensures { option_map (λ names. map (λ n. n.now) names.now) result
        ≡ beside (map (λ folder. (folder.0.now, map (λ n. n.now) folder.1.now)) folders.now) name.now }
{
    for (held, names) in folders {
        if *held == name {
            return Some(names);
        }
    }
    None
}

// What a name holds.
fn found_in<'a>(
    files: &[(&'a str, &'a [u8])],
    folders: &[(&'a str, &'a [&'a str])],
    name: &str,
) -> Held<'a>
    ensures { content_in (map (λ file. (file.0.now, file.1.now)) files.now)
        (map (λ folder. (folder.0.now, map (λ n. n.now) folder.1.now)) folders.now) name.now ≡ content_by result }
{
    match bytes_of(files, name) {
        Some(bytes) => Held::Bytes(bytes),
        None => match names_of(folders, name) {
            Some(names) => Held::Names(names),
            None => Held::Nothing,
        },
    }
}

// Copies of names.
fn copied(alloc: Global, names: &[&str]) -> Result<Vec<String>, AllocError>
    ensures { IfOk result (λ all. map string_bytes all.items ≡ map (λ name. name.now) names.now) }
{
    let mut all = Vec::new(alloc);
    for name in names {
        all.push(String::from_str(alloc, name)?)?;
    }
    Ok(all)
}

impl<'a> MemFiles<'a> {
    /// Files, each a name and its bytes, and folders, each a name and the names of all files in it.
    pub fn new(
        files: &'a [(&'a str, &'a [u8])],
        folders: &'a [(&'a str, &'a [&'a str])],
        fails: &'a [u32],
    ) -> MemFiles<'a>
        ensures { result ≡ record {
          files = map (λ file. (file.0.now, file.1.now)) files.entry.now;
          folders = map (λ folder. (folder.0.now, map (λ name. name.now) folder.1.now)) folders.entry.now;
          fails = fails.entry.now;
          calls = 0;
          faults = 0;
        } }
    {
        MemFiles {
            files,
            folders,
            fails,
            calls: 0,
            faults: 0,
        }
    }
}

impl FileStore for MemFiles<'_> {
    ghost content = { λ s name. content_in s.files s.folders name };

    ghost faults = { λ s. s.faults };

    fn is_there(&self, name: &str) -> bool {
        match found_in(self.files, self.folders, name) {
            Held::Nothing => false,
            Held::Bytes(_) | Held::Names(_) => true,
        }
    }

    fn read(&mut self, alloc: Global, name: &str) -> Result<Vec<u8>, FileError> {
        let call = self.calls;
        self.calls = call.saturating_add(1);
        if self.fails.contains(&call) {
            self.faults = self.faults.saturating_add(1);
            return Err(FileError::Fault);
        }
        match found_in(self.files, self.folders, name) {
            Held::Nothing => Err(FileError::Missing),
            Held::Names(_) => {
                self.faults = self.faults.saturating_add(1);
                Err(FileError::Fault)
            }
            Held::Bytes(bytes) => {
                if bytes.len() >= 4294967296 {
                    return Err(FileError::TooLong);
                }
                match Vec::from_slice(alloc, bytes) {
                    Ok(all) => Ok(all),
                    Err(_) => Err(FileError::NoMemory),
                }
            }
        }
    }

    fn list(&mut self, alloc: Global, name: &str) -> Result<Option<Vec<String>>, FileError> {
        let call = self.calls;
        self.calls = call.saturating_add(1);
        if self.fails.contains(&call) {
            self.faults = self.faults.saturating_add(1);
            return Err(FileError::Fault);
        }
        match found_in(self.files, self.folders, name) {
            Held::Nothing => Ok(None),
            Held::Bytes(_) => Ok(None),
            Held::Names(names) => match copied(alloc, names) {
                Ok(all) => Ok(Some(all)),
                Err(_) => Err(FileError::NoMemory),
            },
        }
    }
}
