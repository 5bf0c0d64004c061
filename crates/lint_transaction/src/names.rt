//! The names of a span, one after another, without building the path.

ghost use Rattle.std.specs.Prelude.{◌≡◌, ◌+◌, ◌<◌, ◌∷◌, [], length, true, IfSome, IfNone};
ghost use Rattle.sql_tree.specs.sql_name.Compared.{name_cut};
ghost use Rattle.sql_tree.specs.sql_token.Terminal.{is_name_kind};
ghost use Rattle.sql_tree.specs.Path.{path_cuts, name_cuts};
ghost use Rattle.sql_tree.specs.Range.{token_at};
ghost use Rattle.lint_transaction.specs.NamesLeft.{name_given, names_from, names_left};
ghost use Rattle.lint_transaction.specs.Transaction.{same_path};
ghost use Rattle.lint_transaction.specs.SpanKey.{hash_of};

use sql_tree::{Name, Parse, Span};
use std::hash::{FoldHasher, Hash, Hasher};

/// The names among the tokens of a span that are still to come.
#[derive(Drop)]
struct Names<'a, 't> {
    file: &'a Parse<'t>,
    /// The number of the next token.
    next: usize,
    /// The number after the last token of the span.
    end: usize,
}

/// The number of the first name among the tokens from `next` to before `end`.
fn name_from(p: &Parse<'_>, next: usize, end: usize) -> Option<usize>
    ensures within { IfSome result (λ i. i < length p.now.toks) }
    ensures before { IfSome result (λ i. i < end) }
    ensures some { IfSome result (λ i. names_from p.now end next ≡ name_given p.now i ∷ names_from p.now end (i + 1)) }
    ensures none { IfNone result (names_from p.now end next ≡ []) }
{
    let limit = p.tokens().len().min(end);
    for i in next..limit {
        if p.tokens()[i].kind.is_name() {
            return Some(i);
        }
    }
    None
}

impl<'a, 't> Names<'a, 't> {
    /// All names of the span.
    fn of(file: &'a Parse<'t>, span: Span) -> Names<'a, 't>
        ensures { names_left result ≡ path_cuts file.now.text file.now.toks span }
    {
        Names {
            file,
            next: span.first as usize,
            end: span.last as usize + 1,
        }
    }

    /// The number of the token that gives the next name.
    fn next(&mut self) -> Option<usize>
        ensures within { IfSome result (λ i. i < length self.new.file.now.toks) }
        ensures some { IfSome result (λ i. names_left self.old ≡ name_given self.new.file.now i ∷ names_left self.new) }
        ensures none { IfNone result (names_left self.old ≡ []) }
    {
        let number = name_from(self.file, self.next, self.end)?;
        self.next = number + 1;
        Some(number)
    }

    /// The name that the token of this number gives.
    fn name(&self, number: usize) -> Name<'t>
        requires { number < length self.now.file.now.toks }
        ensures { name_cut result ≡ name_given self.now.file.now number }
    {
        Name::of(self.file.token_text(number))
    }
}

/// Whether the token of this number is a name.
fn is_name_at(p: &Parse<'_>, i: usize) -> bool
    requires { i < length p.now.toks }
    ensures { result ≡ is_name_kind (token_at p.now.toks i).kind }
{
    p.tokens()[i].kind.is_name()
}

/// Whether two tokens are names that are written alike.
fn is_same_token(p: &Parse<'_>, i: usize, j: usize) -> bool
    requires first { i < length p.now.toks }
    requires second { j < length p.now.toks }
    ensures { result ≡ true → name_cuts p.now.text (token_at p.now.toks i) ≡ name_cuts p.now.text (token_at p.now.toks j) }
{
    if !is_name_at(p, i) || !is_name_at(p, j) {
        return false;
    }
    p.token_text(i) == p.token_text(j)
}

/// Whether two spans are a name each, and these are written alike, as most paths of one table are.
#[tactic(auto, using(crate::proofs::NameLaws::one_token))]
fn is_same_text(p: &Parse<'_>, a: Span, b: Span) -> bool
    ensures { result ≡ true → path_cuts p.now.text p.now.toks a ≡ path_cuts p.now.text p.now.toks b }
{
    let count = p.tokens().len();
    let left = a.first as usize;
    let right = b.first as usize;
    if a.last != a.first || b.last != b.first || left >= count || right >= count {
        return false;
    }
    is_same_token(p, left, right)
}

/// Whether two spans have the same names.
pub(crate) fn is_same_path(p: &Parse<'_>, a: Span, b: Span) -> bool
    ensures { result ≡ same_path (path_cuts p.now.text p.now.toks a) (path_cuts p.now.text p.now.toks b) }
{
    is_same_text(p, a, b) || has_same_names(p, a, b)
}

/// The same, name by name. It is not inlined, since most paths that are compared are written alike.
#[inline(never)]
fn has_same_names(p: &Parse<'_>, a: Span, b: Span) -> bool
    ensures { result ≡ same_path (path_cuts p.now.text p.now.toks a) (path_cuts p.now.text p.now.toks b) }
{
    let mut left = Names::of(p, a);
    let mut right = Names::of(p, b);
    while let Some(number) = left.next() {
        match right.next() {
            Some(other) if left.name(number) == right.name(other) => {}
            _ => return false,
        }
    }
    right.next().is_none()
}

/// The hash of the names of a span.
#[tactic(auto, unfolding(crate::specs::SpanKey::hash_of))]
pub(crate) fn hash_path(p: &Parse<'_>, span: Span) -> u64
    ensures { result ≡ hash_of (path_cuts p.now.text p.now.toks span) }
{
    let mut hasher = FoldHasher::default();
    let mut names = Names::of(p, span);
    while let Some(number) = names.next() {
        names.name(number).hash(&mut hasher);
    }
    hasher.finish()
}
