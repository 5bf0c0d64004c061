//! Text that is put together piece by piece, and compared with the text that is wanted.

use case_format::TextBuilder;
use squawk_cli::Violation;
use std::alloc::Global;
use std::process::Abort;

/// Asserts that the text is whole, and this one. A failure says what is shown.
pub(crate) fn is_shown(rt: &impl Abort, shown: &TextBuilder, of: &str, want: &str) {
    assert_eq!(rt; shown.text(), Some(want), "at {of:?}");
}

/// A text is the one that is wanted. The failure tells what the text is of.
pub(crate) fn is_text(rt: &impl Abort, of: &str, text: &str, want: &str) {
    assert_eq!(rt; text, want, "at {of:?}");
}

/// Where each report begins and ends, and its rule.
pub(crate) fn reports_shown(alloc: Global, reports: &[Violation]) -> TextBuilder {
    let mut out = TextBuilder::new(alloc);
    for report in reports {
        out.range("", report.text_range);
        out.display(" ", &report.code);
        out.add(" ");
    }
    out
}

/// The same with the message of each report.
pub(crate) fn messages_shown(alloc: Global, reports: &[Violation]) -> TextBuilder {
    let mut out = TextBuilder::new(alloc);
    for report in reports {
        out.range("", report.text_range);
        out.display(" ", &report.code);
        out.display(" ", &report.message);
        out.add(" ");
    }
    out
}
