//! Names that are told apart by their whole text.

ghost use Rattle.std.specs.Prelude.{◌≡◌, ◌↔◌, IsTrue, IfOk, string_bytes};
ghost use Rattle.std.specs.Ordering.{nat_cmp, on, as_partial_cmp};
ghost use Rattle.std.specs.Cmp.{partial_order_from_own_ties};
ghost use Rattle.std.specs.Cmp.Lexicographic.{slice_cmp};
ghost use Rattle.std.specs.Str.{bytes_eq};
ghost use Rattle.std.specs.Cmp.Rules.{comparing, hashing};
ghost use Rattle.std.proofs.Common.{rules};
ghost use Rattle.sql_name.specs.Compared.{full_name_text, full_text, full_name_eq};
ghost use Rattle.sql_name.specs.Hash.{text_writes};

use crate::full_bytes::{FullBytes, compare, folded, hash, is_same, is_text};
use std::alloc::Global;
use std::cmp::Ordering;
use std::hash::{Hash, Hasher};
use text_pos::NoMemory;

/// A name that equals another where their full texts are equal: a word in ASCII lower case, a quoted identifier
/// without its quotes (PostgreSQL manual 4.1.1). A name of a constraint is compared so, for example.
#[derive(Clone, Copy, Debug)]
pub struct FullName<'t> {
    text: &'t str,
}

impl<'t> FullName<'t> {
    /// The name that a word or a quoted identifier with its quotes gives. Any other text is read as a word, or,
    /// where it begins with `"`, up to its first `"` that is not doubled.
    pub fn of(text: &'t str) -> FullName<'t>
        ensures { full_name_text result ≡ text.now }
    {
        FullName { text }
    }

    /// The text that the name was made of, with its quotes.
    pub fn text(&self) -> &'t str
        ensures { result.now ≡ full_name_text self.now }
    {
        self.text
    }

    /// Whether the full text is `word`, byte by byte.
    pub fn is(&self, word: &str) -> bool
        ensures { IsTrue result ↔ (full_text self.now ≡ word.now) }
    {
        is_text(FullBytes::whole(self.text), word.as_bytes())
    }

    /// The full text.
    pub fn folded(&self, alloc: Global) -> Result<String, NoMemory>
        ensures { IfOk result (λ full. string_bytes full ≡ full_text self.now) }
    {
        folded(alloc, self.text)
    }

    fn bytes(&self) -> FullBytes<'t>
        ensures { bytes_left result ≡ full_text self.now }
    {
        FullBytes::whole(self.text)
    }

    ghost use Rattle.sql_name.specs.FullBytes.{bytes_left};
}

impl<'t> PartialEq for FullName<'t> {
    ghost eq = { full_name_eq };

    ghost laws = { Prim.search (comparing, rules) };

    fn eq(&self, other: &FullName<'t>) -> bool {
        is_same(self.bytes(), other.bytes())
    }
}

impl<'t> Eq for FullName<'t> {
    ghost laws = { Prim.search (comparing, rules) };
}

impl<'t> PartialOrd for FullName<'t> {
    ghost partial_cmp = { as_partial_cmp (on full_text (slice_cmp nat_cmp)) };

    ghost laws = { partial_order_from_own_ties (Prim.search (comparing, rules)) (Prim.search (comparing, rules)) };

    fn partial_cmp(&self, other: &FullName<'t>) -> Option<Ordering> {
        Some(self.cmp(other))
    }
}

impl<'t> Ord for FullName<'t> {
    ghost cmp = { on full_text (slice_cmp nat_cmp) };

    ghost total = { Prim.search (comparing, rules) };

    ghost matches_partial_cmp = { Prim.search (comparing, rules) };

    ghost matches_eq = { Prim.search (comparing, rules) };

    fn cmp(&self, other: &FullName<'t>) -> Ordering {
        compare(self.bytes(), other.bytes())
    }
}

impl<'t> Hash for FullName<'t> {
    ghost hash_input = { λ name. text_writes (full_text name) };

    ghost respects_eq = { Prim.search (hashing, rules) };

    fn hash<H: Hasher>(&self, state: &mut H) {
        hash(self.bytes(), state);
    }
}
