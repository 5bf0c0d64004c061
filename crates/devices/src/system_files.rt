//! The files of the system. No contract names what they hold, since nothing is known of what the system gives.
ghost use Rattle.std.specs.Prelude.{◌≡◌, ◌≤◌, ℕ};
ghost use Rattle.devices.specs.Contents.{Unknown};
ghost use Rattle.devices.specs.Refused.{RefusedFits};

use crate::store::{FileError, FileStore};
use crate::{ReadError, StdSource, read_to_end};
use std::alloc::Global;
use std::fs::FileType;
use std::io;
use std::io::ErrorKind;
use std::marker::Model;
use std::rt::Files;

// The most folders that a folder may have in it, at any depth.
const MOST_FOLDERS: u32 = 1_000_000;

/// The files of a runtime. It counts the calls that the system refused, but for those on a file that is not there, and those that ran
/// out of memory.
#[derive(Drop)]
pub struct SystemFiles<'r, R> {
    rt: &'r R,
    faults: u64,
}

impl<'r, R> Model for SystemFiles<'r, R> {
    ghost Value = { ℕ };

    ghost view = { λ s. s.faults };
}

impl<'r, R: Files + AllocGlobal + Clone + Drop> SystemFiles<'r, R> {
    pub fn new(rt: &'r R) -> SystemFiles<'r, R>
        ensures { result ≡ 0 }
    {
        SystemFiles { rt, faults: 0 }
    }

    // The error of a call that the system refused.
    fn refused(&mut self, error: io::Error) -> FileError
        ensures fits { RefusedFits result Unknown self.old self.new }
        ensures later { self.old ≤ self.new }
    {
        match error.kind() {
            ErrorKind::NotFound => return FileError::Missing,
            ErrorKind::OutOfMemory => return FileError::NoMemory,
            _ => {}
        }
        self.faults = self.faults.saturating_add(1);
        FileError::Fault
    }

    // Whether reading it may wait for ever: a pipe, a socket or a device, or a link to one.
    fn is_special(&self, path: &str, kind: FileType) -> bool {
        if !kind.is_symlink() {
            return !kind.is_file();
        }
        match std::fs::metadata(self.rt, path) {
            Ok(about) => !about.is_file() && !about.is_dir(),
            Err(_) => false,
        }
    }

    // Adds what is right in a folder: files to `names`, and folders to `folders`. A link to a folder counts as a file, so that no
    // folder is gone through twice. Pipes, sockets and devices are passed over.
    fn add_folder(
        &self,
        alloc: Global,
        folder: &str,
        names: &mut Vec<String>,
        folders: &mut Vec<String>,
    ) -> io::Result<()> {
        for entry in std::fs::read_dir(self.rt, folder)? {
            let entry = entry?;
            let path = String::from_str(alloc, entry.path().as_str())?;
            let kind = entry.file_type()?;
            if kind.is_dir() {
                folders.push(path)?;
            } else if !self.is_special(path.as_str(), kind) {
                names.push(path)?;
            }
        }
        Ok(())
    }

    // The names of all files in a folder and in the folders in it.
    fn names_in(&self, alloc: Global, folder: &str) -> io::Result<Vec<String>> {
        let mut names = Vec::new(alloc);
        let mut folders = Vec::new(alloc);
        folders.push(String::from_str(alloc, folder)?)?;
        for _turn in 0..MOST_FOLDERS {
            let Some(next) = folders.pop() else {
                return Ok(names);
            };
            self.add_folder(alloc, next.as_str(), &mut names, &mut folders)?;
        }
        Err(io::Error::from(ErrorKind::Other))
    }
}

impl<R: Files + AllocGlobal + Clone + Drop> FileStore for SystemFiles<'_, R> {
    ghost content = { λ _ _. Unknown };

    ghost faults = { λ s. s };

    fn is_there(&self, name: &str) -> bool {
        std::fs::metadata(self.rt, name).is_ok()
    }

    fn read(&mut self, alloc: Global, name: &str) -> Result<Vec<u8>, FileError> {
        let file = match std::fs::open(self.rt, name) {
            Ok(file) => file,
            Err(error) => return Err(self.refused(error)),
        };
        let mut source = StdSource::new(file);
        match read_to_end(alloc, &mut source) {
            Ok(bytes) => Ok(bytes),
            Err(ReadError::TooLong) => Err(FileError::TooLong),
            Err(ReadError::NoMemory) => Err(FileError::NoMemory),
            Err(ReadError::Fault) => {
                self.faults = self.faults.saturating_add(1);
                Err(FileError::Fault)
            }
        }
    }

    fn list(&mut self, alloc: Global, name: &str) -> Result<Option<Vec<String>>, FileError> {
        match std::fs::metadata(self.rt, name) {
            Ok(about) if about.is_dir() => {}
            Ok(_) => return Ok(None),
            Err(_) => return Ok(None),
        }
        match self.names_in(alloc, name) {
            Ok(names) => Ok(Some(names)),
            Err(error) => Err(self.refused(error)),
        }
    }
}
