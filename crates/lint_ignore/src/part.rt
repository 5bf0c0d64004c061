//! Parts of a text, with their places.
ghost use Rattle.std.specs.Prelude.{◌+◌, ◌<◌, ◌^◌, length};

use sql_tree::{TextRange, TextSize};

/// A part of a text, and the byte at which it begins.
#[derive(Clone, Copy)]
pub(crate) struct Part<'t> {
    pub(crate) at: u32,
    pub(crate) text: &'t str,
    ghost fits: { at + length text.now < 2 ^ 32 },
}

impl<'t> Part<'t> {
    ghost use Rattle.std.specs.Prelude.{◌≡◌, ◌∷◌, IfSome, MatchOption};
    ghost use Rattle.std.specs.List.{starts_with};
    ghost use Rattle.std.specs.Prelude.{nat_eq, false, true};
    ghost use Rattle.lint_ignore.specs.Part.{part_of, part_after, trimmed, trimmed_end, part_before_dashes, range_of, comma_parts, parts_left};

    /// Its place in the text.
    pub(crate) fn range(self) -> TextRange
        ensures { result ≡ range_of (part_of self.entry) }
    {
        let end = self.at + self.text.len() as u32;
        TextRange::new(TextSize::new(self.at), TextSize::new(end))
    }

    /// The part without white space at its end.
    pub(crate) fn trimmed_end(self) -> Part<'t>
        ensures { part_of result ≡ trimmed_end (part_of self.entry) }
    {
        Part {
            at: self.at,
            text: self.text.trim_end(),
        }
    }

    /// The part without white space at both ends.
    pub(crate) fn trimmed(self) -> Part<'t>
        ensures { part_of result ≡ trimmed (part_of self.entry) }
    {
        let text = self.text.trim_start();
        let at = self.at + (self.text.len() - text.len()) as u32;
        Part { at, text }.trimmed_end()
    }

    /// What comes before the first `--`, or all of it.
    pub(crate) fn before_dashes(self) -> Part<'t>
        ensures { part_of result ≡ part_before_dashes (part_of self.entry) }
    {
        if let Some((text, _)) = self.text.split_once("--") {
            return Part { at: self.at, text };
        }
        self
    }

    /// What follows a text at its start, if it begins with that.
    pub(crate) fn after(self, prefix: &str) -> Option<Part<'t>>
        ensures { MatchOption result (starts_with nat_eq self.entry.text.now prefix.now ≡ false)
            (λ rest. (starts_with nat_eq self.entry.text.now prefix.now ≡ true) × (part_of rest ≡ part_after (length prefix.now) (part_of self.entry))) }
    {
        match self.text.strip_prefix(prefix) {
            Some(text) => Some(Part {
                at: self.at + prefix.len() as u32,
                text,
            }),
            None => None,
        }
    }

    /// The piece before the first comma, and what follows that comma if there is one.
    pub(crate) fn split_comma(self) -> (Part<'t>, Option<Part<'t>>)
        ensures pieces { comma_parts (part_of self.entry) ≡ part_of result.0 ∷ parts_left result.1 }
        ensures shorter { IfSome result.1 (λ rest. length rest.text.now < length self.entry.text.now) }
    {
        if let Some((piece, rest)) = self.text.split_once(',') {
            let first = Part {
                at: self.at,
                text: piece,
            };
            let at = self.at + piece.len() as u32 + 1;
            return (first, Some(Part { at, text: rest }));
        }
        (self, None)
    }
}
