//! From files to a configuration.
ghost use Rattle.std.specs.Prelude.{◌≡◌, ◌<◌, ◌≤◌, ◌^◌, IfErr, IfOk, length, string_bytes};
ghost use Rattle.check_config.specs.devices.Contents.{KeepsContents};
ghost use Rattle.config_file.specs.Loaded.{AreRefused, AreTaken, IsLoaded, IsLoadedIn, IsRefusedFile, IsRefusedFolder, IsRefusedLoad, IsRefusedText, IsTaken, IsTextTaken};

use crate::error::{LoadError, refused};
use crate::find::{config_name, found};
use crate::line::{file_line, text_line};
use check_config::{Config, ConfigError, ConfigFault, FileError, FileStore, read_config, text_in};
use report_lines::Text;
use std::alloc::Global;

// The configuration of a text.
fn text_config(alloc: Global, name: &str, text: &str) -> Result<Config, LoadError>
    requires { length text.now < 2 ^ 32 }
    ensures taken { IfOk result (IsTextTaken text.now) }
    ensures refused { IfErr result (IsRefusedText name.now text.now) }
{
    match read_config(alloc, text) {
        Ok(config) => Ok(config),
        Err(ConfigError::Refused(fault)) => Err(refused(text_line(alloc, name, text, &fault))),
        Err(ConfigError::NoMemory) => Err(LoadError::NoMemory),
    }
}

// The configuration of the bytes of a file.
fn bytes_config(alloc: Global, name: &str, bytes: &[u8]) -> Result<Config, LoadError>
    requires { length bytes.now < 2 ^ 32 }
    ensures taken { IfOk result (AreTaken bytes.now) }
    ensures refused { IfErr result (AreRefused name.now bytes.now) }
{
    match text_in(bytes) {
        Ok(text) => text_config(alloc, name, text),
        Err(_) => Err(refused(file_line(alloc, name, " not UTF-8\n"))),
    }
}

// The configuration of a file.
fn file_config<F: FileStore>(alloc: Global, files: &mut F, name: &str) -> Result<Config, LoadError>
    ensures taken { IfOk result (IsTaken (F.content files.old name.now)) }
    ensures refused { IfErr result (IsRefusedFile (F.content files.old name.now) (F.faults files.old) (F.faults files.new) name.now) }
    ensures kept { KeepsContents (F.content files.old) (F.content files.new) }
    ensures later { F.faults files.old ≤ F.faults files.new }
{
    match files.read(alloc, name) {
        Ok(bytes) => bytes_config(alloc, name, bytes.as_slice()),
        Err(FileError::NoMemory) => Err(LoadError::NoMemory),
        Err(FileError::Missing | FileError::Fault | FileError::TooLong) => {
            Err(refused(file_line(alloc, name, " can't be read\n")))
        }
    }
}

/// The configuration of a run: that of the file that is given, or else of the `.squawk.toml` in the working directory or in the first
/// folder above it that has one, up to the folder that has a `.git`; where there is none, the empty one. At most 64 folders are looked
/// into.
pub fn load_config<F: FileStore>(
    alloc: Global,
    files: &mut F,
    given: &Option<Text>,
) -> Result<Config, LoadError>
    ensures loaded { IfOk result (IsLoaded (F.content files.old) given.now) }
    ensures refused { IfErr result (IsRefusedLoad (F.content files.old) (F.faults files.old) (F.faults files.new) given.now) }
    ensures kept { KeepsContents (F.content files.old) (F.content files.new) }
    ensures later { F.faults files.old ≤ F.faults files.new }
{
    match config_name(alloc, files, given) {
        Ok(Some(name)) => file_config(alloc, files, name.as_str()),
        Ok(None) => Ok(Config::empty(alloc)),
        Err(_) => Err(LoadError::NoMemory),
    }
}

/// The configuration of a folder: that of the `.squawk.toml` in it or in the first folder above it that has one, up to the folder that has
/// a `.git`; where there is none, the empty one. The folder's name ends in a slash, or is empty for the working directory. At most 64 folders
/// are looked into.
pub fn folder_config<F: FileStore>(
    alloc: Global,
    files: &mut F,
    folder: &str,
) -> Result<Config, LoadError>
    ensures loaded { IfOk result (IsLoadedIn (F.content files.old) folder.now) }
    ensures refused { IfErr result (IsRefusedFolder (F.content files.old) (F.faults files.old) (F.faults files.new) folder.now) }
    ensures kept { KeepsContents (F.content files.old) (F.content files.new) }
    ensures later { F.faults files.old ≤ F.faults files.new }
{
    match found(alloc, files, folder) {
        Ok(Some(name)) => file_config(alloc, files, name.as_str()),
        Ok(None) => Ok(Config::empty(alloc)),
        Err(_) => Err(LoadError::NoMemory),
    }
}
