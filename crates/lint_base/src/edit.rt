//! Edits of a text.
ghost use Rattle.std.specs.Prelude.{◌≡◌};

use crate::text::Text;
use std::cmp::Ordering;
use text_pos::{TextRange, TextSize};

/// A change of one part of a text.
#[derive(Debug, Drop, PartialEq, Eq)]
pub struct Edit {
    /// The bytes that are replaced; an empty range for an insertion.
    pub text_range: TextRange,
    /// What is in their place; `None` for a deletion.
    pub text: Option<Text>,
}

impl Edit {
    ghost use Rattle.lint_base.specs.Edits.{deletion, insertion, replacement};

    /// Inserts a text before a place.
    pub fn insert(text: Text, at: TextSize) -> Edit
        ensures { result ≡ insertion text at }
    {
        Edit {
            text_range: TextRange::new(at, at),
            text: Some(text),
        }
    }

    /// Replaces a range by a text.
    pub fn replace(text_range: TextRange, text: Text) -> Edit
        ensures { result ≡ replacement text_range text }
    {
        Edit {
            text_range,
            text: Some(text),
        }
    }

    /// Deletes a range.
    pub fn delete(text_range: TextRange) -> Edit
        ensures { result ≡ deletion text_range }
    {
        Edit {
            text_range,
            text: None,
        }
    }
}

impl Ord for Edit {
    ghost use Rattle.std.specs.Prelude.{refl};
    ghost use Rattle.lint_base.specs.Edits.{edit_cmp};
    ghost use Rattle.lint_base.specs.EditLaws.{edit_cmp-total, edit_ties};

    ghost cmp = { edit_cmp };

    ghost total = { edit_cmp-total };

    ghost matches_partial_cmp = { λ a b. refl };

    ghost matches_eq = { edit_ties };

    fn cmp(&self, other: &Edit) -> Ordering {
        self.text_range
            .start()
            .cmp(&other.text_range.start())
            .then(self.text_range.end().cmp(&other.text_range.end()))
            .then(self.text.cmp(&other.text))
    }
}

impl PartialOrd for Edit {
    ghost use Rattle.std.specs.Prelude.{refl};
    ghost use Rattle.std.specs.Cmp.{partial_order_from_agreeing_total};
    ghost use Rattle.std.specs.Ordering.{as_partial_cmp};
    ghost use Rattle.lint_base.specs.Edits.{edit_cmp};
    ghost use Rattle.lint_base.specs.EditLaws.{edit_cmp-total, edit_ties};

    ghost partial_cmp = { as_partial_cmp edit_cmp };

    ghost laws = { partial_order_from_agreeing_total edit_cmp edit_cmp-total (λ a b. refl) edit_ties };

    fn partial_cmp(&self, other: &Edit) -> Option<Ordering> {
        Some(self.cmp(other))
    }
}
