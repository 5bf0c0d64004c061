//! Files that are written in memory, at calls that fail where they are to fail.
ghost use Rattle.std.specs.Prelude.{◌≡◌, ◌++◌, ◌∷◌, [], IfOk, OnErr, OnOk, map, string_bytes};

use crate::writer::{FileWriter, WriteError};
use std::alloc::{AllocError, Global};
use std::marker::Model;

/// A file that was written.
#[derive(Debug, Drop)]
pub struct Written {
    /// Its name.
    pub name: String,
    /// Its bytes.
    pub bytes: Vec<u8>,
}

/// Files that were written, in the order of the calls. There is none at first. The calls whose numbers are listed fail, counted from 0.
#[derive(Drop)]
pub struct MemWriter<'a> {
    files: Vec<Written>,
    fails: &'a [u32],
    calls: u32,
    faults: u64,
}

impl<'a> Model for MemWriter<'a> {
    ghost use Rattle.std.specs.Prelude.{map, string_bytes};
    ghost use Rattle.devices.specs.Held.{WrittenFiles};

    ghost Value = { WrittenFiles };

    ghost view = { λ s. record {
      files = map (λ file. (string_bytes file.name, file.bytes.items)) s.files.items;
      fails = s.fails.now;
      calls = s.calls;
      faults = s.faults;
    } };
}

// A file of a name and bytes.
fn written_file(alloc: Global, name: &str, bytes: &[u8]) -> Result<Written, AllocError>
    ensures name { IfOk result (λ file. string_bytes file.name ≡ name.now) }
    ensures bytes { IfOk result (λ file. file.bytes.items ≡ bytes.now) }
{
    Ok(Written {
        name: String::from_str(alloc, name)?,
        bytes: Vec::from_slice(alloc, bytes)?,
    })
}

impl<'a> MemWriter<'a> {
    /// No file is written yet.
    pub fn new(alloc: Global, fails: &'a [u32]) -> MemWriter<'a>
        ensures { result ≡ record { files = []; fails = fails.entry.now; calls = 0; faults = 0 } }
    {
        MemWriter {
            files: Vec::new(alloc),
            fails,
            calls: 0,
            faults: 0,
        }
    }

    /// The files that were written.
    pub fn files(&self) -> &[Written]
        ensures { map (λ file. (string_bytes file.name, file.bytes.items)) result.now ≡ self.now.files }
    {
        self.files.as_slice()
    }

    // Whether this call is to fail. It counts the call.
    fn fails_now(&mut self) -> bool
        ensures files { self.new.files ≡ self.old.files }
        ensures faults { self.new.faults ≡ self.old.faults }
    {
        let call = self.calls;
        self.calls = call.saturating_add(1);
        self.fails.contains(&call)
    }

    // Adds a file.
    fn add(&mut self, alloc: Global, name: &str, bytes: &[u8]) -> Result<(), AllocError>
        ensures written { OnOk result (self.new.files ≡ self.old.files ++ (name.now, bytes.now) ∷ []) }
        ensures kept { OnErr result (self.new.files ≡ self.old.files) }
        ensures faults { self.new.faults ≡ self.old.faults }
    {
        let file = written_file(alloc, name, bytes)?;
        self.files.push(file)?;
        Ok(())
    }
}

impl FileWriter for MemWriter<'_> {
    ghost use Rattle.devices.specs.Held.{held};

    ghost content = { λ s name. held s.files name };

    ghost faults = { λ s. s.faults };

    fn replace(&mut self, alloc: Global, name: &str, bytes: &[u8]) -> Result<(), WriteError> {
        if self.fails_now() {
            self.faults = self.faults.saturating_add(1);
            return Err(WriteError::Fault);
        }
        match self.add(alloc, name, bytes) {
            Ok(()) => Ok(()),
            Err(_) => Err(WriteError::NoMemory),
        }
    }
}
