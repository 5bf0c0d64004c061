//! Runs of `lavkheto check`, `lavkheto fix` and `lavkheto gate` over the files that a text holds, and of `lavkheto explain`. Used by tests only.
//!
//! What comes before the first file is standard input. These lines begin a file:
//!
//! - `> NAME`: a file with the lines after it;
//! - `>/ NAME`: a folder; its files are those whose names begin with its name and a slash;
//! - `>! NAME`: a file that can't be read.

use crate::memory::{ROOM, answer_of, words_of};
use crate::read::read_files;
use case_format::{Answer, Fault};
use check_command::run;
use check_progress::Meter;
use squawk_cli::{MemSink, MemWriter, SliceSource, Written};
use std::alloc::Global;

/// A run with these words, the first of which is `check`, over the files of a text. Used by tests only; no contract.
pub fn checked(alloc: Global, words: &[String], text: &[u8]) -> Result<Answer, Fault> {
    let words = words_of(alloc, words)?;
    let (input, mut files) = read_files(alloc, text)?;
    let mut src = SliceSource::new(input.as_slice());
    let mut out = MemSink::new(alloc, ROOM, &[])?;
    let mut err = MemSink::new(alloc, ROOM, &[])?;
    let mut progress = Meter::new(alloc, MemSink::new(alloc, 0, &[])?, false);
    let code = match run(
        alloc,
        &words,
        false,
        &mut files,
        &mut src,
        &mut out,
        &mut err,
        &mut progress,
    ) {
        Ok(status) => status.code(),
        Err(stop) => stop.code(),
    };
    answer_of(alloc, code, out.bytes(), err.bytes())
}

/// A run with these words, the first of which is `explain`. Used by tests only; no contract.
pub fn explained(alloc: Global, words: &[String]) -> Result<Answer, Fault> {
    let words = words_of(alloc, words)?;
    let mut out = MemSink::new(alloc, ROOM, &[])?;
    let mut err = MemSink::new(alloc, ROOM, &[])?;
    let code = match explain_command::run(alloc, &words, &mut out, &mut err) {
        Ok(()) => 0,
        Err(failure) => failure.code(),
    };
    answer_of(alloc, code, out.bytes(), err.bytes())
}

// Adds files that were written, each after a line of its name.
fn push_written(to: &mut Vec<u8>, files: &[Written]) -> Result<(), Fault> {
    for file in files {
        to.extend_from_slice(b"> ")?;
        to.extend_from_slice(file.name.as_bytes())?;
        to.extend_from_slice(b"\n")?;
        to.extend_from_slice(file.bytes.as_slice())?;
    }
    Ok(())
}

/// A run with these words, the first of which is `fix`, over the files of a text. The files that are written come after what is printed,
/// each after a line `> NAME`. Used by tests only; no contract.
pub fn fixed(alloc: Global, words: &[String], text: &[u8]) -> Result<Answer, Fault> {
    let words = words_of(alloc, words)?;
    let (input, mut files) = read_files(alloc, text)?;
    let mut writer = MemWriter::new(alloc, &[]);
    let mut src = SliceSource::new(input.as_slice());
    let mut out = MemSink::new(alloc, ROOM, &[])?;
    let mut err = MemSink::new(alloc, ROOM, &[])?;
    let code = match fix_command::run(
        alloc,
        &words,
        &mut files,
        &mut writer,
        &mut src,
        &mut out,
        &mut err,
    ) {
        Ok(status) => status.code(),
        Err(failure) => failure.code(),
    };
    let mut shown = Vec::from_slice(alloc, out.bytes())?;
    push_written(&mut shown, writer.files())?;
    answer_of(alloc, code, shown.as_slice(), err.bytes())
}

/// A run with these words, the first of which is `gate`, over the files of a text. Used by tests only; no contract.
pub fn gated(alloc: Global, words: &[String], text: &[u8]) -> Result<Answer, Fault> {
    let words = words_of(alloc, words)?;
    let (_, mut files) = read_files(alloc, text)?;
    let mut out = MemSink::new(alloc, ROOM, &[])?;
    let mut err = MemSink::new(alloc, ROOM, &[])?;
    let code = match gate_command::run(alloc, &words, &mut files, &mut out, &mut err) {
        Ok(status) => status.code(),
        Err(failure) => failure.code(),
    };
    answer_of(alloc, code, out.bytes(), err.bytes())
}
