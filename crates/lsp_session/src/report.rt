//! Reports at positions.
use lint_report::{Code, Text};
use std::marker::Model;
use text_utf16::Pos;

/// A report of a part of a text, as an editor shows it.
#[derive(Drop)]
pub struct Report {
    /// Where the part begins.
    pub start: Pos,
    /// Where it ends.
    pub end: Pos,
    /// What it goes by, or none where the text can't be read there.
    pub code: Option<Code>,
    /// What is wrong.
    pub message: Text,
    /// What else is to be known.
    pub note: Option<Text>,
    /// What can be done instead.
    pub help: Option<Text>,
    /// How to mend the text.
    pub fix: Option<Remedy>,
    /// How to tell the linter that the part is meant as it is.
    pub ignore: Option<Remedy>,
}

/// What can be done about a report: changes of the text that are made together.
#[derive(Drop)]
pub struct Remedy {
    /// What it does, in a few words.
    pub title: Text,
    /// Whether it may be made unseen.
    pub is_preferred: bool,
    /// The changes, all of them of the text as it was before any.
    pub changes: Vec<Change>,
}

impl Model for Remedy {
    ghost use Rattle.lsp_session.specs.Remedy.{RemedyValue};

    ghost Value = { RemedyValue };

    ghost view = { λ remedy. record { title = remedy.title; is_preferred = remedy.is_preferred; changes = remedy.changes.items } };
}

/// A change of one part of a text.
#[derive(Drop)]
pub struct Change {
    /// Where the part begins.
    pub start: Pos,
    /// Where it ends.
    pub end: Pos,
    /// What is in its place; `None` for a deletion.
    pub text: Option<Text>,
}
