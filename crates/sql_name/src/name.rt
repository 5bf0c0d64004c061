//! Names that are told apart by the text that PostgreSQL keeps of them, at most 63 bytes.

ghost use Rattle.std.specs.Prelude.{◌≡◌, ◌↔◌, IsTrue, IfOk, string_bytes, take, length};
ghost use Rattle.std.specs.Ordering.{nat_cmp, on, as_partial_cmp};
ghost use Rattle.std.specs.Cmp.{partial_order_from_own_ties};
ghost use Rattle.std.specs.Cmp.Lexicographic.{slice_cmp};
ghost use Rattle.std.specs.Str.{bytes_eq};
ghost use Rattle.std.specs.Cmp.Rules.{comparing, hashing};
ghost use Rattle.std.proofs.Common.{rules};
ghost use Rattle.sql_name.specs.Name.{cut_name, full_name};
ghost use Rattle.sql_name.specs.Cut.{IsLongestCut};
ghost use Rattle.sql_name.specs.Hash.{text_writes};

use crate::full_bytes::{FullBytes, compare, cut_limit, folded, hash, is_same, is_text};
use std::alloc::Global;
use std::cmp::Ordering;
use std::hash::{Hash, Hasher};
use text_pos::NoMemory;

/// A name that equals another where their cut texts are equal. The full text is a word in ASCII lower case, or a
/// quoted identifier without its quotes and with one `"` for `""`; the cut text is as much of it as PostgreSQL
/// keeps, the longest prefix of at most 63 bytes that ends on a character boundary (PostgreSQL manual 4.1.1).
/// Comparisons and hashes read the source text and copy nothing.
#[derive(Clone, Copy, Debug)]
pub struct Name<'t> {
    text: &'t str,
    limit: usize,
    ghost cuts: { take limit (full_name text.now) ≡ cut_name text.now },
}

impl<'t> Name<'t> {
    ghost use Rattle.sql_name.specs.Compared.{name_text, name_cut};
    ghost use Rattle.sql_name.specs.FullBytes.{bytes_left};

    /// The name that a word or a quoted identifier with its quotes gives. Any other text is read as a word, or,
    /// where it begins with `"`, up to its first `"` that is not doubled.
    pub fn of(text: &'t str) -> Name<'t>
        ensures text { name_text result ≡ text.now }
        ensures longest { IsLongestCut 63 (full_name text.now) (cut_name text.now) }
    {
        Name {
            text,
            limit: cut_limit(text),
        }
    }

    /// The text that the name was made of, with its quotes.
    pub fn text(&self) -> &'t str
        ensures { result.now ≡ name_text self.now }
    {
        self.text
    }

    /// Whether the full text, not cut, is `word`, byte by byte.
    pub fn is(&self, word: &str) -> bool
        ensures { IsTrue result ↔ (full_name (name_text self.now) ≡ word.now) }
    {
        is_text(FullBytes::whole(self.text), word.as_bytes())
    }

    /// The full text, not cut.
    pub fn folded(&self, alloc: Global) -> Result<String, NoMemory>
        ensures { IfOk result (λ full. string_bytes full ≡ full_name (name_text self.now)) }
    {
        folded(alloc, self.text)
    }

    fn cut_bytes(&self) -> FullBytes<'t>
        ensures { bytes_left result ≡ name_cut self.now }
    {
        FullBytes::new(self.text, self.limit)
    }
}

/// The name of the empty text.
impl<'t> Default for Name<'t> {
    ghost use Rattle.sql_name.specs.Compared.{name_text};
    ghost use Rattle.std.specs.Prelude.{[]};

    ghost is_default = { λ n. name_text n ≡ [] };

    fn default() -> Name<'t> {
        Name::of("")
    }
}

impl<'t> PartialEq for Name<'t> {
    ghost use Rattle.sql_name.specs.Compared.{name_cut, name_eq};

    ghost eq = { name_eq };

    ghost laws = { Prim.search (comparing, rules) };

    fn eq(&self, other: &Name<'t>) -> bool {
        is_same(self.cut_bytes(), other.cut_bytes())
    }
}

impl<'t> Eq for Name<'t> {
    ghost laws = { Prim.search (comparing, rules) };
}

impl<'t> PartialOrd for Name<'t> {
    ghost use Rattle.sql_name.specs.Compared.{name_cut, name_eq};

    ghost partial_cmp = { as_partial_cmp (on name_cut (slice_cmp nat_cmp)) };

    ghost laws = { partial_order_from_own_ties (Prim.search (comparing, rules)) (Prim.search (comparing, rules)) };

    fn partial_cmp(&self, other: &Name<'t>) -> Option<Ordering> {
        Some(self.cmp(other))
    }
}

impl<'t> Ord for Name<'t> {
    ghost use Rattle.sql_name.specs.Compared.{name_cut, name_eq};

    ghost cmp = { on name_cut (slice_cmp nat_cmp) };

    ghost total = { Prim.search (comparing, rules) };

    ghost matches_partial_cmp = { Prim.search (comparing, rules) };

    ghost matches_eq = { Prim.search (comparing, rules) };

    fn cmp(&self, other: &Name<'t>) -> Ordering {
        compare(self.cut_bytes(), other.cut_bytes())
    }
}

impl<'t> Hash for Name<'t> {
    ghost use Rattle.sql_name.specs.Compared.{name_cut, name_eq};

    ghost hash_input = { λ n. text_writes (name_cut n) };

    ghost respects_eq = { Prim.search (hashing, rules) };

    fn hash<H: Hasher>(&self, state: &mut H) {
        hash(self.cut_bytes(), state);
    }
}
