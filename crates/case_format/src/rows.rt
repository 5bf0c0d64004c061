//! Rows: one case a line.

use crate::fault::Fault;
use crate::report::{Answer, Subject, shown};
use std::alloc::Global;

/// The words without a last one that is a frame, and what the frame has before and after `{}`.
fn split_frame(words: &[String]) -> (&[String], &str, &str) {
    if let Some((last, rest)) = words.split_last() {
        if let Some((front, back)) = last.as_str().split_once("{}") {
            return (rest, front, back);
        }
    }
    (words, "", "")
}

/// A row's text in its frame, with a line feed for each `⏎`.
fn framed(alloc: Global, front: &str, row: &str, back: &str) -> Result<String, Fault> {
    let mut text = String::from_str(alloc, front)?;
    let mut is_first = true;
    for line in row.split('⏎') {
        if !is_first {
            text.push_str("\n")?;
        }
        text.push_str(line)?;
        is_first = false;
    }
    text.push_str(back)?;
    Ok(text)
}

/// Each row with what the subject answers to it.
fn rows_answered<S: Subject>(
    alloc: Global,
    subject: &S,
    words: &[String],
    rows: &str,
) -> Result<Answer, Fault> {
    let mut answer = Answer::new(alloc);
    let (words, front, back) = split_frame(words);
    for row in rows.lines() {
        let (text, _) = row.split_once(" ==>").unwrap_or((row, ""));
        let whole = framed(alloc, front, text, back)?;
        let got = subject.row(alloc, words, whole.as_str())?;
        let got = got.as_str();
        let gap = if got.is_empty() { "" } else { " " };
        let line = format!(in alloc; "{text} ==>{gap}{got}\n")?;
        answer.out.extend_from_slice(line.as_bytes())?;
    }
    Ok(answer)
}

/// What a subject answers to a case, or to each of its rows where the first word is `rows`. Used by tests only; no contract.
pub(crate) fn answered<S: Subject>(
    alloc: Global,
    subject: &S,
    words: &[String],
    text: &[u8],
) -> Result<Answer, Fault> {
    if let Some((first, rest)) = words.split_first() {
        if first.as_str() == "rows" {
            return rows_answered(alloc, subject, rest, shown(text));
        }
    }
    subject.answer(alloc, words, text)
}
