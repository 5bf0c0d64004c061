//! The names by which a span of a text is identified, how they are compared, and their hash. Sets and maps of spans share it.

ghost use Rattle.std.specs.Prelude.{◌≡◌, fold};
ghost use Rattle.std.specs.Hash.FoldHasher as folding;
ghost use Rattle.lint_transaction.specs.SpanKey.{key_of, hash_of};
ghost use Rattle.lint_transaction.specs.Transaction.{same_path};

use crate::name::{is_same_name, name_at};
use crate::names::{hash_path, is_same_path};
use sql_tree::{Parse, Span};
use std::hash::{FoldHasher, Hash, Hasher};

/// How many spans a set or a map keeps in a list before it hashes: most transactions name no more tables, and to compare
/// these costs less than to hash each.
pub(crate) const FEW: usize = 4;

/// The names by which a set or a map identifies its spans. Two spans with the same names are one to it, wherever in the text
/// they are, and whether or not the names are quoted.
#[derive(Clone, Copy, Debug, PartialEq, Eq)]
pub enum SpanKey {
    /// All names in the span, each cut to the bytes that PostgreSQL keeps of it: paths of tables and other objects.
    Path,
    /// The full text of the span's last token as a name: names of constraints.
    LastName,
    /// The full texts of the span's first and last token as names: a table and a column of it.
    BothEnds,
}

/// The hash of a value by a hasher of its own.
fn hash_alone<T: Hash>(value: &T) -> u64
    ensures { result ≡ folding.finish (fold folding.write folding.initial (T.hash_input value.now)) }
{
    let mut hasher = FoldHasher::default();
    value.hash(&mut hasher);
    hasher.finish()
}

/// The hash of two values by a hasher of their own.
fn hash_both<A: Hash, B: Hash>(first: &A, second: &B) -> u64
    ensures { result ≡ folding.finish (fold folding.write (fold folding.write folding.initial (A.hash_input first.now)) (B.hash_input second.now)) }
{
    let mut hasher = FoldHasher::default();
    first.hash(&mut hasher);
    second.hash(&mut hasher);
    hasher.finish()
}

/// The hash of the names by which a span is identified.
pub(crate) fn hash(p: &Parse<'_>, key: SpanKey, span: Span) -> u64
    ensures { result ≡ hash_of (key_of key p.now span) }
{
    match key {
        SpanKey::Path => hash_path(p, span),
        SpanKey::LastName => hash_alone(&name_at(p, span.last)),
        SpanKey::BothEnds => hash_both(&name_at(p, span.first), &name_at(p, span.last)),
    }
}

/// Whether two spans have the same names.
pub(crate) fn is_same(p: &Parse<'_>, key: SpanKey, a: Span, b: Span) -> bool
    ensures { result ≡ same_path (key_of key p.now a) (key_of key p.now b) }
{
    match key {
        SpanKey::Path => is_same_path(p, a, b),
        SpanKey::LastName => is_same_name(p, a.last, b.last),
        SpanKey::BothEnds => {
            is_same_name(p, a.first, b.first) && is_same_name(p, a.last, b.last)
        }
    }
}
