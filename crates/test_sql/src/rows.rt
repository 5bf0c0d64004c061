//! Rows of texts and answers, and how the two are compared.

ghost use Rattle.std.specs.Prelude.{◌<◌, ◌^◌, length};

use case_format::TextBuilder;
use sql_read::Span;
use std::alloc::Global;
use std::fmt::Display;
use std::process::Abort;

/// Adds a piece so many times, with this between.
pub(crate) fn repeat(out: &mut TextBuilder, piece: &str, between: &str, count: usize) {
    for i in 0..count {
        out.push_if(i > 0, between);
        out.add(piece);
    }
}

/// Adds the numbers of the first and the last token.
pub(crate) fn show_span(out: &mut TextBuilder, span: Span) {
    out.debug("", &span.first);
    out.debug("-", &span.last);
}

/// A call that reads a text.
pub(crate) trait Reading {
    ghost use Rattle.std.specs.Prelude.{◌<◌, ◌^◌, length};

    /// Adds what it answers to a text.
    fn read(&self, text: &str, out: &mut TextBuilder)
        requires { length text.now < 2 ^ 32 };
}

/// Reads a text that is short enough.
pub(crate) fn read_short<R: Reading>(reading: &R, text: &str, out: &mut TextBuilder) {
    if text.len() < 1000 {
        reading.read(text, out);
    } else {
        out.fail();
    }
}

/// Compares what is answered to the text of a row, of this number in its table, with what is wanted.
pub(crate) fn compare_row<A: Abort, R: Reading>(
    rt: &A,
    alloc: Global,
    number: usize,
    reading: &R,
    text: &str,
    want: &str,
) {
    let mut answer = TextBuilder::new(alloc);
    read_short(reading, text, &mut answer);
    assert_eq!(rt; answer.text(), Some(want), "in row {number} at {text:?}");
}

/// Compares what is answered to each text with what is wanted.
pub(crate) fn compare<A: Abort, R: Reading>(
    rt: &A,
    alloc: Global,
    reading: &R,
    rows: &[(&str, &str)],
) {
    for (number, (text, want)) in rows.iter().enumerate() {
        compare_row(rt, alloc, number, reading, text, want);
    }
}

/// The same where each row has a reading of its own.
pub(crate) fn compare_each<A: Abort, R: Reading>(rt: &A, alloc: Global, rows: &[(R, &str, &str)]) {
    for (number, (reading, text, want)) in rows.iter().enumerate() {
        compare_row(rt, alloc, number, reading, text, want);
    }
}

/// The text of an error, which reads nothing.
pub(crate) struct Message<E>(pub(crate) E);

impl<E: Display> Reading for Message<E> {
    fn read(&self, _text: &str, out: &mut TextBuilder) {
        out.display("", &self.0);
    }
}
