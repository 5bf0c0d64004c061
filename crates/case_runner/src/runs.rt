//! What a row keeps of a run, on one line.

use case_format::{Answer, Fault, TextBuilder, shown};
use std::alloc::Global;

/// What a row keeps of a run besides the lines on the error sink.
#[derive(Clone, Copy)]
pub(crate) enum Kept {
    /// The ranges and rules of the reports with their edits, as in `0..24 require-concurrent-index-creation insert 12`.
    Reports,
    /// The works, as in `0: share on 18..19 old; 1: access exclusive unnamed old`.
    Works,
    /// Whether the text is plain.
    Plainness,
}

/// Of a printed line the range and the rule, or what an edit does and where. Of `unused-ignore` the message too, since its
/// names differ.
fn add_report(row: &mut TextBuilder, line: &str) {
    if let Some(edit) = line.strip_prefix("    ") {
        let (edit, _) = edit.split_once(" \"").unwrap_or((edit, ""));
        row.word(edit);
    } else if let Some((range, rest)) = line.split_once(": warning[") {
        let (rule, message) = rest.split_once("]: ").unwrap_or((rest, ""));
        row.word(range);
        row.word(rule);
        if rule == "unused-ignore" {
            row.word(message);
        }
    }
}

/// A printed work without the word `work` and without the backquotes.
fn add_work(row: &mut TextBuilder, line: &str) {
    if let Some(work) = line.strip_prefix("work ") {
        row.gap("; ");
        for piece in work.split('`') {
            row.add(piece);
        }
    }
}

fn add_plainness(row: &mut TextBuilder, line: &str) {
    match line {
        "plain: yes" => row.word("plain"),
        "plain: no" => row.word("not plain"),
        _ => (),
    }
}

fn add_line(row: &mut TextBuilder, kept: Kept, line: &str) {
    match kept {
        Kept::Reports => add_report(row, line),
        Kept::Works => add_work(row, line),
        Kept::Plainness => add_plainness(row, line),
    }
}

fn add_errors(row: &mut TextBuilder, answer: &Answer) {
    for line in shown(answer.err.as_slice()).lines() {
        row.word(line);
    }
}

/// What a row keeps of a run, and the line on the error sink. Used by tests only; no contract.
pub(crate) fn row_of(alloc: Global, kept: Kept, answer: &Answer) -> Result<String, Fault> {
    let mut row = TextBuilder::new(alloc);
    for line in shown(answer.out.as_slice()).lines() {
        add_line(&mut row, kept, line);
    }
    add_errors(&mut row, answer);
    row.finish()
}
