//! Words of a statement that its tree does not keep.

ghost use Rattle.std.specs.Prelude.{◌≡◌, ◌+◌, ◌<◌, drop, length, IfSome};
ghost use Rattle.lint_ignore.specs.sql_tree.Range.{token_at};
ghost use Rattle.hazard_find.specs.Look as spec;

use lint_ignore::{
    Keyword, Parse, Span, Stmt, TokKind, first_significant, keyword_of, same_keyword,
};

/// The number of the first token, from number `next` to before number `end`, that is no blank and no comment.
#[tactic(auto, unfolding(crate::specs::Look::token_from))]
pub(crate) fn token_from(p: &Parse<'_>, next: usize, end: usize) -> Option<usize>
    ensures value { result ≡ spec.token_from p.now end next }
    ensures within { IfSome result (λ i. i < length p.now.toks) }
{
    let limit = p.tokens().len().min(end);
    if next >= limit {
        return None;
    }
    match first_significant(&p.tokens()[next..limit]) {
        Some(k) => Some(next + k),
        None => None,
    }
}

/// The number of a token, as a tree has it.
pub(crate) fn number(p: &Parse<'_>, i: usize) -> u32
    requires { i < length p.now.toks }
    ensures { result ≡ i }
{
    let _tokens = p.tokens();
    i as u32
}

/// The number of the next token.
pub(crate) fn after(p: &Parse<'_>, i: usize) -> usize
    requires { i < length p.now.toks }
    ensures { result ≡ i + 1 }
{
    let _tokens = p.tokens();
    i + 1
}

/// The key word that a token is.
fn keyword_at(p: &Parse<'_>, i: usize) -> Option<Keyword>
    requires { i < length p.now.toks }
    ensures { result ≡ spec.word_by (token_at p.now.toks i).kind (spec.text_at p.now i) }
{
    match p.tokens()[i].kind {
        TokKind::Word => keyword_of(p.token_text(i).as_bytes()),
        _ => None,
    }
}

/// Whether the token of this number is this key word.
pub(crate) fn is_word_at(p: &Parse<'_>, word: Keyword, i: usize) -> bool
    requires { i < length p.now.toks }
    ensures { result ≡ spec.is_word_at p.now word i }
{
    match keyword_at(p, i) {
        Some(found) => same_keyword(found, word),
        None => false,
    }
}

/// The number after that word, where it comes first.
fn after_word(p: &Parse<'_>, word: Keyword, next: usize, end: usize) -> Option<usize>
    ensures { result ≡ spec.after_word p.now end word next }
{
    match token_from(p, next, end) {
        Some(i) if is_word_at(p, word, i) => Some(after(p, i)),
        _ => None,
    }
}

/// The number after these words, where they come first.
pub(crate) fn after_words(
    p: &Parse<'_>,
    words: &[Keyword],
    next: usize,
    end: usize,
) -> Option<usize>
    ensures { result ≡ spec.after_words p.now end words.now next }
{
    let mut at = next;
    for word in words {
        match after_word(p, *word, at, end) {
            Some(next) => at = next,
            None => return None,
        }
    }
    Some(at)
}

/// The number after these words, where they come first, or `next` itself.
#[tactic(auto, unfolding(crate::specs::Look::after_optional))]
pub(crate) fn after_optional(p: &Parse<'_>, words: &[Keyword], next: usize, end: usize) -> usize
    ensures { result ≡ spec.after_optional p.now end words.now next }
{
    match after_words(p, words, next, end) {
        Some(after) => after,
        None => next,
    }
}

/// Whether the tokens from the first number to the last one begin with these words.
#[tactic(auto, unfolding(crate::specs::Look::begins))]
pub(crate) fn begins(p: &Parse<'_>, words: &[Keyword], first: u32, last: u32) -> bool
    ensures { result ≡ spec.begins p.now words.now first last }
{
    after_words(p, words, first as usize, last as usize + 1).is_some()
}

/// Whether a statement begins with these words.
pub(crate) fn says(p: &Parse<'_>, words: &[Keyword], s: &Stmt) -> bool
    ensures { result ≡ spec.says p.now words.now s.now }
{
    begins(p, words, s.first, s.last)
}

/// The token after a dot.
fn name_after_dot(p: &Parse<'_>, dot: usize, end: usize) -> Option<usize>
    requires { dot < length p.now.toks }
    ensures value { result ≡ spec.name_after_dot p.now end dot }
    ensures within { IfSome result (λ i. i < length p.now.toks) }
{
    if p.token_text(dot) == "." {
        token_from(p, after(p, dot), end)
    } else {
        None
    }
}

/// The token after the dot that follows a token, or that token itself.
fn after_dot(p: &Parse<'_>, i: usize, end: usize) -> usize
    requires { i < length p.now.toks }
    ensures value { result ≡ spec.after_dot p.now end i }
    ensures within { result < length p.now.toks }
{
    match token_from(p, after(p, i), end) {
        Some(dot) => match name_after_dot(p, dot, end) {
            Some(name) => name,
            None => i,
        },
        None => i,
    }
}

/// The path that begins with a token.
fn path_at(p: &Parse<'_>, i: usize, end: usize) -> Span
    requires { i < length p.now.toks }
    ensures { result ≡ spec.path_at p.now end i }
{
    let last = after_dot(p, after_dot(p, i, end), end);
    Span {
        first: number(p, i),
        last: number(p, last),
    }
}

/// The path that comes first.
#[tactic(auto, unfolding(crate::specs::Look::path_from))]
pub(crate) fn path_from(p: &Parse<'_>, next: usize, end: usize) -> Option<Span>
    ensures { result ≡ spec.path_from p.now end next }
{
    match token_from(p, next, end) {
        Some(i) => Some(path_at(p, i, end)),
        None => None,
    }
}

/// The path that follows these words, which come first in the statement, and then perhaps those.
#[tactic(auto, unfolding(crate::specs::Look::path_after))]
pub(crate) fn path_after(
    p: &Parse<'_>,
    words: &[Keyword],
    optional: &[Keyword],
    s: &Stmt,
) -> Option<Span>
    ensures { result ≡ spec.path_after p.now words.now optional.now s.now }
{
    let end = s.last as usize + 1;
    match after_words(p, words, s.first as usize, end) {
        Some(next) => path_from(p, after_optional(p, optional, next, end), end),
        None => None,
    }
}
