//! The texts of reports.
ghost use Rattle.std.specs.Prelude.{◌≡◌, List, ℕ, nat_eq, refl, Some, true};
ghost use Rattle.std.specs.List.{list_all};
ghost use Rattle.lint_base.specs.PlainBytes.{is_plain};
ghost use Rattle.std.specs.Ordering.{nat_cmp};
ghost use Rattle.std.specs.Hash as fed;
ghost use Rattle.std.specs.Cmp.Lexicographic.{pointwise, slice_cmp, nat_list_eq_equiv, nat_list_cmp_total, texts_ties, texts_po};
ghost use Rattle.std.specs.Cmp.{partial_equiv_from_equiv};
ghost use Rattle.std.specs.Cmp.Rules.{hashing};
ghost use Rattle.std.specs.String.{string_bytes};
ghost use Rattle.std.proofs.Common.{rules};

use bytes::ByteStr;
use std::cmp::Ordering;
use std::fmt;
use std::hash::{Hash, Hasher};
use std::marker::Model;

/// Where the bytes of a text are.
#[derive(Drop)]
enum Source {
    /// In the program.
    Fixed(ByteStr),
    /// In the program, and each byte stands for itself on a printed line.
    Plain(ByteStr),
    /// In memory that was taken for it.
    Made(String),
}

/// A text of a report: a part of the program, or made for the occasion.
///
/// Texts are compared, ordered and hashed by their bytes, whichever way they were made.
#[derive(Drop)]
pub struct Text {
    source: Source,
}

impl Model for Text {
    ghost use Rattle.std.specs.Prelude.{List, ℕ};

    ghost Value = { List ℕ };

    ghost use Rattle.lint_base.specs.TextBytes.{IsKept, source_bytes};

    ghost view = { λ text. source_bytes text.source };

    ghost invariant = { λ text. IsKept text.source };
}

impl Text {
    /// A text of the program. It takes no memory.
    pub fn fixed(s: &'static str) -> Text
        ensures { result ≡ s.entry.now }
    {
        Text {
            source: Source::Fixed(ByteStr::from_static(s)),
        }
    }

    /// A text of the program on one line, without backslashes and quotes, so that it is printed as it is. It takes no memory.
    pub fn plain(s: &'static str) -> Text
        requires { list_all is_plain s.now ≡ true }
        ensures { result ≡ s.entry.now }
    {
        Text {
            source: Source::Plain(ByteStr::from_static(s)),
        }
    }

    /// A text that was made before. It takes no more memory.
    pub fn made(s: String) -> Text
        ensures { result ≡ string_bytes s }
    {
        Text {
            source: Source::Made(s),
        }
    }

    /// Whether the text is known to be on one line, without backslashes and quotes: one made by [`Text::plain`] is.
    pub fn is_plain(&self) -> bool
        ensures { result ≡ true → list_all is_plain self.now ≡ true }
    {
        matches!(&self.source, Source::Plain(_))
    }

    /// The text itself.
    pub fn as_str(&self) -> &str
        ensures { result.now ≡ self.now }
    {
        match &self.source {
            Source::Fixed(s) | Source::Plain(s) => s.as_str(),
            Source::Made(s) => s.as_str(),
        }
    }
}

impl PartialEq for Text {
    ghost eq = { pointwise nat_eq };

    ghost laws = { partial_equiv_from_equiv nat_list_eq_equiv };

    fn eq(&self, other: &Text) -> bool {
        self.as_str() == other.as_str()
    }
}

impl Eq for Text {
    ghost laws = { nat_list_eq_equiv };
}

impl PartialOrd for Text {
    ghost partial_cmp = { λ a b. Some (slice_cmp nat_cmp a b) };

    ghost laws = { texts_po };

    fn partial_cmp(&self, other: &Text) -> Option<Ordering> {
        Some(self.cmp(other))
    }
}

impl Ord for Text {
    ghost cmp = { slice_cmp nat_cmp };

    ghost total = { nat_list_cmp_total };

    ghost matches_partial_cmp = { λ a b. refl };

    ghost matches_eq = { texts_ties };

    fn cmp(&self, other: &Text) -> Ordering {
        self.as_str().cmp(other.as_str())
    }
}

impl Hash for Text {
    ghost hash_input = { fed.str };

    ghost respects_eq = { Prim.search (hashing, rules) };

    fn hash<H: Hasher>(&self, state: &mut H) {
        self.as_str().hash(state);
    }
}

impl fmt::Debug for Text {
    fn fmt<W: fmt::Write>(&self, f: &mut fmt::Formatter<W>) -> fmt::Result {
        fmt::Debug::fmt(&self.as_str(), f)
    }
}

impl fmt::Display for Text {
    ghost output = { λ text. Some text };

    fn fmt<W: fmt::Write>(&self, f: &mut fmt::Formatter<W>) -> fmt::Result {
        fmt::Display::fmt(&self.as_str(), f)
    }
}
