//! What runs over memory share: how much a sink holds, their words, and their answers.

use case_format::{Answer, Fault};
use check_progress::Words;
use std::alloc::Global;

/// How many bytes a sink holds.
pub const ROOM: usize = 65536;

/// The words of a case as those of a command line. Used by tests only; no contract.
pub fn words_of(alloc: Global, given: &[String]) -> Result<Words, Fault> {
    let mut words = Words::new(alloc);
    for word in given {
        words.push(word.as_str())?;
    }
    Ok(words)
}

/// The answer with these bytes. Used by tests only; no contract.
pub fn answer_of(alloc: Global, status: u8, out: &[u8], err: &[u8]) -> Result<Answer, Fault> {
    Ok(Answer {
        status,
        out: Vec::from_slice(alloc, out)?,
        err: Vec::from_slice(alloc, err)?,
    })
}
