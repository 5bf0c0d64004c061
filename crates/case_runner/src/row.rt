//! The parts of a tree in a row. Used by tests only; no contract.

use case_format::TextBuilder;
use squawk_cli::{Parse, Span};

/// A part of a tree.
pub(crate) trait Show {
    /// Adds its text.
    fn show(&self, row: &mut TextBuilder, p: &Parse<'_>);
}

/// `y` or `n`.
pub(crate) fn add_yes_or_no(row: &mut TextBuilder, is_so: bool) {
    row.add(if is_so { "y" } else { "n" });
}

/// The range from the start of one token to the end of another one, after the label.
pub(crate) fn add_span_range(
    row: &mut TextBuilder,
    p: &Parse<'_>,
    label: &str,
    first: u32,
    last: u32,
) {
    row.range(label, p.span_range(first, last));
}

/// The bytes from the start of one token to the end of another one, after the label.
pub(crate) fn add_source(row: &mut TextBuilder, p: &Parse<'_>, label: &str, first: u32, last: u32) {
    let range = p.span_range(first, last);
    let start = range.start().raw() as usize;
    let end = range.end().raw() as usize;
    row.add(label);
    row.add(p.text().get(start..end).unwrap_or("no text"));
}

/// The same in quotes, after a blank.
pub(crate) fn add_quoted(row: &mut TextBuilder, p: &Parse<'_>, first: u32, last: u32) {
    add_source(row, p, " \'", first, last);
    row.add("\'");
}

/// The text of a span after the label, where there is a span.
pub(crate) fn add_span(row: &mut TextBuilder, p: &Parse<'_>, label: &str, span: Option<Span>) {
    if let Some(span) = span {
        add_source(row, p, label, span.first, span.last);
    }
}

/// A token's own text after the label, where there is a token.
pub(crate) fn add_token(row: &mut TextBuilder, p: &Parse<'_>, label: &str, number: Option<u32>) {
    if let Some(number) = number {
        add_source(row, p, label, number, number);
    }
}

/// A part after the label, where there is a part.
pub(crate) fn add_part<T: Show>(
    row: &mut TextBuilder,
    p: &Parse<'_>,
    label: &str,
    part: &Option<T>,
) {
    if let Some(part) = part {
        row.add(label);
        part.show(row, p);
    }
}

/// The first part after the label, and each further one after the separator.
pub(crate) fn add_parts<T: Show>(
    row: &mut TextBuilder,
    p: &Parse<'_>,
    label: &str,
    separator: &str,
    parts: &[T],
) {
    let mut gap = label;
    for part in parts {
        row.add(gap);
        part.show(row, p);
        gap = separator;
    }
}
