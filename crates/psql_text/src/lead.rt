//! The first words of a statement.

ghost use Rattle.std.specs.Prelude.{◌≡◌};
ghost use Rattle.psql_text.specs.Marks as spec;

use crate::mark::Mark;

/// How far the first words of a statement are CREATE [OR REPLACE] FUNCTION or PROCEDURE.
#[derive(Clone, Copy)]
pub enum Lead {
    /// No word was read.
    Empty,
    /// CREATE
    Create,
    /// CREATE OR
    CreateOr,
    /// CREATE OR REPLACE
    CreateOrReplace,
    /// All of these words.
    Routine,
    /// Other words.
    Other,
}

impl Lead {
    /// Whether these are all of the words.
    pub fn is_whole(self) -> bool
        ensures { result ≡ spec.is_whole self }
    {
        matches!(self, Lead::Routine)
    }

    /// The first words with one more.
    pub fn after(self, mark: Mark) -> Lead
        ensures { result ≡ spec.lead_after self mark }
    {
        match self {
            Lead::Empty => {
                if mark.is_create() {
                    Lead::Create
                } else {
                    Lead::Other
                }
            }
            Lead::Create => {
                if mark.is_routine() {
                    Lead::Routine
                } else if mark.is_or() {
                    Lead::CreateOr
                } else {
                    Lead::Other
                }
            }
            Lead::CreateOr => {
                if mark.is_replace() {
                    Lead::CreateOrReplace
                } else {
                    Lead::Other
                }
            }
            Lead::CreateOrReplace => {
                if mark.is_routine() {
                    Lead::Routine
                } else {
                    Lead::Other
                }
            }
            Lead::Routine => Lead::Routine,
            Lead::Other => Lead::Other,
        }
    }
}
