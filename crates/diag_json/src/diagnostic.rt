//! Diagnostics.
use lint_base::{Rule, Text};
use std::marker::Model;
use text_utf16::Pos;

/// A report as an editor shows it.
#[derive(Debug, Drop, PartialEq, Eq)]
pub struct Diagnostic {
    /// Where it begins.
    pub start: Pos,
    /// Where it ends.
    pub end: Pos,
    /// The rule.
    pub rule: Rule,
    /// What is wrong.
    pub message: Text,
    /// What else is to be known.
    pub note: Option<Text>,
    /// What can be done instead.
    pub help: Option<Text>,
    /// How to mend the text.
    pub fix: Option<DiagFix>,
}

/// A way to mend what a diagnostic is about: edits that are made together.
#[derive(Debug, Drop)]
pub struct DiagFix {
    /// What the fix does, in a few words.
    pub title: Text,
    /// The edits, all of them of the text as it was before any.
    pub edits: Vec<DiagEdit>,
}

impl Model for DiagFix {
    ghost use Rattle.diag_json.specs.Fix.{DiagFixValue};

    ghost Value = { DiagFixValue };

    ghost view = { λ fix. record { title = fix.title; edits = fix.edits.items } };
}

impl PartialEq for DiagFix {
    ghost use Rattle.std.specs.Cmp.{partial_equiv_from_equiv};
    ghost use Rattle.diag_json.specs.Equality.{fix_eq};
    ghost use Rattle.diag_json.specs.EqualityLaws.{fix_eq-equiv};

    ghost eq = { fix_eq };

    ghost laws = { partial_equiv_from_equiv fix_eq-equiv };

    fn eq(&self, other: &DiagFix) -> bool {
        self.title == other.title && self.edits.as_slice() == other.edits.as_slice()
    }
}

impl Eq for DiagFix {
    ghost use Rattle.diag_json.specs.EqualityLaws.{fix_eq-equiv};

    ghost laws = { fix_eq-equiv };
}

/// A change of one part of a text.
#[derive(Debug, Drop, PartialEq, Eq)]
pub struct DiagEdit {
    /// Where what is replaced begins.
    pub start: Pos,
    /// Where it ends; for an insertion the same position.
    pub end: Pos,
    /// What is in its place; `None` for a deletion.
    pub text: Option<Text>,
}
