//! Reports of a text.

use crate::code::Code;
use crate::fix_class::FixClass;
use hazard_base::{Fix, Text, TextRange};

/// A report of a part of a text.
#[derive(Debug, Drop)]
pub struct Report {
    /// What it goes by.
    pub code: Code,
    /// What is wrong.
    pub message: Text,
    /// Where it is, in bytes of the text.
    pub text_range: TextRange,
    /// The statement that it is in, in bytes of the text: from its first token to its last; the part itself where that is in none.
    pub statement: TextRange,
    /// What else is to be known.
    pub note: Option<Text>,
    /// What can be done instead.
    pub help: Option<Text>,
    /// How to mend the text.
    pub fix: Option<ReportFix>,
}

/// A way to mend what a report is about.
#[derive(Debug, Drop)]
pub struct ReportFix {
    /// How far it can be trusted.
    pub class: FixClass,
    /// What it changes.
    pub fix: Fix,
}
