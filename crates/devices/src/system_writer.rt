//! The files of the system. No contract names what they hold, since nothing is known of what the system keeps.
ghost use Rattle.std.specs.Prelude.{◌≡◌, ◌≤◌, ℕ};
ghost use Rattle.devices.specs.Writes.{IsRefusal};

use crate::writer::{FileWriter, WriteError};
use std::alloc::Global;
use std::fs::{OpenFile, OpenOptions, Permissions};
use std::io;
use std::io::{ErrorKind, Write};
use std::marker::Model;
use std::rt::Files;

// How many names are tried for the new file.
const TRIES: u32 = 100;

/// The files of a runtime. It counts the calls that the system refused.
///
/// A file is replaced by a new one beside it, which is filled, synced and given the mode of the old one before it takes its name: whoever
/// reads the name finds the old bytes or all of the new ones. A name that is a link stays one, and the file that it leads to is replaced.
/// The new file belongs to who runs the program; a fault leaves none behind, as far as the system lets it be removed.
#[derive(Drop)]
pub struct SystemWriter<'r, R> {
    rt: &'r R,
    faults: u64,
}

impl<'r, R> Model for SystemWriter<'r, R> {
    ghost Value = { ℕ };

    ghost view = { λ s. s.faults };
}

impl<'r, R: Files + AllocGlobal + Clone + Drop> SystemWriter<'r, R> {
    pub fn new(rt: &'r R) -> SystemWriter<'r, R>
        ensures { result ≡ 0 }
    {
        SystemWriter { rt, faults: 0 }
    }

    // Makes a file that was not there, to be written.
    fn create(&self, path: &str) -> io::Result<R::File> {
        OpenOptions::new()
            .write(true)
            .create_new(true)
            .open(self.rt, path)
    }

    // Gives the file its mode and its bytes, and waits until the disk has them.
    fn fill(&self, file: &mut R::File, mode: Permissions, bytes: &[u8]) -> io::Result<()> {
        file.set_permissions(mode)?;
        file.write_all(bytes)?;
        file.flush()?;
        file.sync_all()
    }

    // Fills a new file and gives it the name of the old one.
    fn put(
        &self,
        mut file: R::File,
        beside: &str,
        path: &str,
        mode: Permissions,
        bytes: &[u8],
    ) -> io::Result<()> {
        self.fill(&mut file, mode, bytes)?;
        std::fs::rename(self.rt, beside, path)
    }

    // Replaces a file by a new one of the name `beside`, which must be free.
    fn put_beside(&self, beside: &str, path: &str, bytes: &[u8]) -> io::Result<()> {
        let about = std::fs::metadata(self.rt, path)?;
        let file = self.create(beside)?;
        match self.put(file, beside, path, about.permissions(), bytes) {
            Ok(()) => Ok(()),
            Err(error) => {
                let _ = std::fs::remove_file(self.rt, beside);
                Err(error)
            }
        }
    }

    // Replaces a file.
    fn put_new(&self, alloc: Global, name: &str, bytes: &[u8]) -> io::Result<()> {
        let path = std::fs::canonicalize(self.rt, name)?;
        let path = path.as_str();
        for number in 0..TRIES {
            let beside = format!(in alloc; "{path}.lavkheto{number}")?;
            match self.put_beside(beside.as_str(), path, bytes) {
                Err(error) if error.kind() == ErrorKind::AlreadyExists => {}
                done => return done,
            }
        }
        Err(io::Error::from(ErrorKind::AlreadyExists))
    }

    // The error of a call that the system refused.
    fn refused(&mut self, error: io::Error) -> WriteError
        ensures fits { IsRefusal result self.old self.new }
        ensures later { self.old ≤ self.new }
    {
        if error.kind() == ErrorKind::OutOfMemory {
            return WriteError::NoMemory;
        }
        self.faults = self.faults.saturating_add(1);
        WriteError::Fault
    }
}

impl<R: Files + AllocGlobal + Clone + Drop> FileWriter for SystemWriter<'_, R> {
    ghost use Rattle.devices.specs.Contents.{Unknown};

    ghost content = { λ _ _. Unknown };

    ghost faults = { λ s. s };

    fn replace(&mut self, alloc: Global, name: &str, bytes: &[u8]) -> Result<(), WriteError> {
        match self.put_new(alloc, name, bytes) {
            Ok(()) => Ok(()),
            Err(error) => Err(self.refused(error)),
        }
    }
}
