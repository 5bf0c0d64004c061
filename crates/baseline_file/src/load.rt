//! From files to a baseline.
ghost use Rattle.std.specs.Prelude.{◌≡◌, ◌<◌, ◌≤◌, ◌^◌, IfErr, IfOk, length, option_map};
ghost use Rattle.check_run.specs.devices.Contents.{KeepsContents};
ghost use Rattle.baseline_file.specs.Loaded.{AreRefused, AreTaken, IsBadLine, IsLoaded, IsRefusedFile, IsRefusedLoad, IsRefusedText, IsTaken, IsTextTaken};

use crate::filter::BaselineFilter;
use check_baseline::{Baseline, BaselineError};
use check_run::{FileError, FileStore, NoMemory, Place, text_in};
use config_file::{LoadError, file_line, line_at, refused};
use std::alloc::Global;

// The line about one that is not a line of a baseline.
fn bad_line(alloc: Global, name: &str, number: usize) -> Result<Vec<u8>, NoMemory>
    ensures { IfOk result (λ line. IsBadLine name.now number line.items) }
{
    let place = Place {
        line: number,
        column: 1,
    };
    line_at(alloc, name, place, "not a line of a baseline")
}

// The filter of a text.
fn text_filter(alloc: Global, name: &str, text: &str) -> Result<BaselineFilter, LoadError>
    ensures taken { IfOk result (λ filter. IsTextTaken text.now filter.baseline) }
    ensures refused { IfErr result (IsRefusedText name.now text.now) }
{
    match Baseline::read(alloc, text) {
        Ok(baseline) => Ok(BaselineFilter {
            baseline: Some(baseline),
        }),
        Err(BaselineError::Line(number)) => Err(refused(bad_line(alloc, name, number))),
        Err(BaselineError::NoMemory) => Err(LoadError::NoMemory),
    }
}

// The filter of the bytes of a file.
fn bytes_filter(alloc: Global, name: &str, bytes: &[u8]) -> Result<BaselineFilter, LoadError>
    ensures taken { IfOk result (λ filter. AreTaken bytes.now filter.baseline) }
    ensures refused { IfErr result (AreRefused name.now bytes.now) }
{
    match text_in(bytes) {
        Ok(text) => text_filter(alloc, name, text),
        Err(_) => Err(refused(file_line(alloc, name, " not UTF-8\n"))),
    }
}

// The filter of a file.
fn file_filter<F: FileStore>(
    alloc: Global,
    files: &mut F,
    name: &str,
) -> Result<BaselineFilter, LoadError>
    ensures taken { IfOk result (λ filter. IsTaken (F.content files.old name.now) filter.baseline) }
    ensures refused { IfErr result (IsRefusedFile (F.content files.old name.now) (F.faults files.old) (F.faults files.new) name.now) }
    ensures kept { KeepsContents (F.content files.old) (F.content files.new) }
    ensures later { F.faults files.old ≤ F.faults files.new }
{
    match files.read(alloc, name) {
        Ok(bytes) => bytes_filter(alloc, name, bytes.as_slice()),
        Err(FileError::NoMemory) => Err(LoadError::NoMemory),
        Err(FileError::Missing | FileError::Fault | FileError::TooLong) => {
            Err(refused(file_line(alloc, name, " can't be read\n")))
        }
    }
}

/// What leaves the reports out that the baseline in a file knows, or none where no file is given.
pub fn load_filter<F: FileStore>(
    alloc: Global,
    files: &mut F,
    given: Option<&str>,
) -> Result<BaselineFilter, LoadError>
    ensures loaded { IfOk result (λ filter. IsLoaded (F.content files.old) (option_map (λ s. s.now) given.entry) filter.baseline) }
    ensures refused { IfErr result (IsRefusedLoad (F.content files.old) (F.faults files.old) (F.faults files.new) (option_map (λ s. s.now) given.entry)) }
    ensures kept { KeepsContents (F.content files.old) (F.content files.new) }
    ensures later { F.faults files.old ≤ F.faults files.new }
{
    match given {
        Some(name) => file_filter(alloc, files, name),
        None => Ok(BaselineFilter { baseline: None }),
    }
}
