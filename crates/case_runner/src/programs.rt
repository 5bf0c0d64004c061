//! The linter's programs over memory, as what cases are about. The first word of a case chooses: `tree` is the printed tree,
//! `words` is the configuration that a row of words names, `works` and `plain` are what `--locks` adds to a run with the other
//! words, `gate` is a run of the gate and `diag` one of the diagnostics, `check` is a run of `lavkheto` over the files that the text
//! holds, `explain` is a run of it that explains a rule, `fix` one that makes fixes and `gate_files` one of its gate over such files, `server`
//! is a talk with it, and anything else is a run of the command with those words.

use crate::checks::{checked, explained, fixed, gated};
use crate::config::configured;
use crate::memory::{ROOM, answer_of, words_of};
use crate::runs::{Kept, row_of};
use crate::talks::served;
use crate::trees::Trees;
use case_format::{Answer, Fault, Subject};
use gate_command::gate_run;
use squawk_cli::{MemSink, SliceSource, Words, run};
use squawk_diag::diag_run;
use std::alloc::Global;

/// All programs that cases are about.
pub struct Programs;

/// The first word, and the other words.
fn split_first(words: &[String]) -> (&str, &[String]) {
    match words.split_first() {
        Some((first, rest)) => (first.as_str(), rest),
        None => ("", words),
    }
}

/// A run of the command.
fn ran(alloc: Global, words: &Words, text: &[u8]) -> Result<Answer, Fault> {
    let mut out = MemSink::new(alloc, ROOM, &[])?;
    let mut err = MemSink::new(alloc, ROOM, &[])?;
    let status = run(
        alloc,
        words,
        &mut SliceSource::new(text),
        &mut out,
        &mut err,
    );
    answer_of(alloc, status.code(), out.bytes(), err.bytes())
}

/// A run of the gate.
fn gate_ran(alloc: Global, words: &[String], bundle: &[u8]) -> Result<Answer, Fault> {
    let words = words_of(alloc, words)?;
    let mut src = SliceSource::new(bundle);
    let mut out = MemSink::new(alloc, ROOM, &[])?;
    let mut err = MemSink::new(alloc, ROOM, &[])?;
    let status = gate_run(alloc, &words, &mut src, &mut out, &mut err);
    answer_of(alloc, status.code(), out.bytes(), err.bytes())
}

/// A run of the diagnostics.
fn diag_ran(alloc: Global, words: &[String], text: &[u8]) -> Result<Answer, Fault> {
    let words = words_of(alloc, words)?;
    let mut src = SliceSource::new(text);
    let mut out = MemSink::new(alloc, ROOM, &[])?;
    let mut err = MemSink::new(alloc, ROOM, &[])?;
    let status = diag_run(alloc, &words, &mut src, &mut out, &mut err);
    answer_of(alloc, status.code(), out.bytes(), err.bytes())
}

/// A run of the command, on one line.
fn row_of_run(alloc: Global, words: &[String], text: &str) -> Result<String, Fault> {
    let words = words_of(alloc, words)?;
    row_of(alloc, Kept::Reports, &ran(alloc, &words, text.as_bytes())?)
}

/// A run of the command with `--locks` beside other words.
fn row_of_locks(alloc: Global, kept: Kept, words: &[String], text: &str) -> Result<String, Fault> {
    let mut words = words_of(alloc, words)?;
    words.push("--locks")?;
    row_of(alloc, kept, &ran(alloc, &words, text.as_bytes())?)
}

impl Subject for Programs {
    fn answer(&self, alloc: Global, words: &[String], text: &[u8]) -> Result<Answer, Fault> {
        match split_first(words) {
            ("tree", rest) => Trees.answer(alloc, rest, text),
            ("gate", rest) => gate_ran(alloc, rest, text),
            ("diag", rest) => diag_ran(alloc, rest, text),
            ("check", _) => checked(alloc, words, text),
            ("explain", _) => explained(alloc, words),
            ("fix", _) => fixed(alloc, words, text),
            ("gate_files", _) => gated(alloc, words, text),
            ("server", _) => served(alloc, words, text),
            _ => ran(alloc, &words_of(alloc, words)?, text),
        }
    }

    fn row(&self, alloc: Global, words: &[String], text: &str) -> Result<String, Fault> {
        let (first, rest) = split_first(words);
        match first {
            "tree" => Trees.row(alloc, rest, text),
            "words" => configured(alloc, text),
            "works" => row_of_locks(alloc, Kept::Works, rest, text),
            "plain" => row_of_locks(alloc, Kept::Plainness, rest, text),
            _ => row_of_run(alloc, words, text),
        }
    }
}
