//! Talks with `lavkheto server`, as what cases are about. Used by tests only.
//!
//! What comes before the first file is the input, line by line; files are begun as in the text of a case of `lavkheto check`.
//!
//! - A line is the content of a message; its header is put before it.
//! - `= BYTES` is a line of the input itself, with its line feed.
//!
//! Of the output each message is a line, without its header. An output that is no messages stays as it is.

use crate::memory::{ROOM, words_of};
use crate::read::read_files;
use case_format::{Answer, Fault};
use server_command::{Frames, push_frame, run};
use squawk_cli::{MemSink, SliceSource};
use std::alloc::Global;

// A line of a text as input.
fn push_line(alloc: Global, input: &mut Vec<u8>, line: &[u8]) -> Result<(), Fault> {
    match line {
        [b'=', b' ', bytes @ ..] => input.extend_from_slice(bytes)?,
        [content @ .., b'\n'] => push_frame(alloc, input, content)?,
        _ => push_frame(alloc, input, line)?,
    }
    Ok(())
}

fn input_of(alloc: Global, talk: &[u8]) -> Result<Vec<u8>, Fault> {
    let mut input = Vec::new(alloc);
    for line in talk.split_inclusive(|byte| *byte == b'\n') {
        push_line(alloc, &mut input, line)?;
    }
    Ok(input)
}

// The messages of an output, each on a line.
fn lines_of(alloc: Global, output: &[u8]) -> Result<Vec<u8>, Fault> {
    let mut lines = Vec::new(alloc);
    let mut source = SliceSource::new(output);
    let mut frames = Frames::new(alloc)?;
    for _turn in 0..u64::MAX {
        match frames.next(&mut source) {
            Ok(Some(content)) => {
                lines.extend_from_slice(content.as_slice())?;
                lines.push(b'\n')?;
            }
            Ok(None) => return Ok(lines),
            Err(_) => return Ok(Vec::from_slice(alloc, output)?),
        }
    }
    Ok(lines)
}

/// A talk with these words, the first of which is `server`. Used by tests only; no contract.
pub fn served(alloc: Global, words: &[String], text: &[u8]) -> Result<Answer, Fault> {
    let words = words_of(alloc, words)?;
    let (talk, files) = read_files(alloc, text)?;
    let input = input_of(alloc, talk.as_slice())?;
    let mut src = SliceSource::new(input.as_slice());
    let mut out = MemSink::new(alloc, ROOM, &[])?;
    let mut err = MemSink::new(alloc, ROOM, &[])?;
    let outcome = run(alloc, &words, files, &mut src, &mut out, &mut err);
    Ok(Answer {
        status: outcome.code(),
        out: lines_of(alloc, out.bytes())?,
        err: Vec::from_slice(alloc, err.bytes())?,
    })
}
