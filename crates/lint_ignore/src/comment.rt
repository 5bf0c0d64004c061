//! Comments that speak to the linter.
ghost use Rattle.std.specs.Prelude.{◌≡◌, ◌<◌, ◌+◌, ◌^◌, All, false, length, MatchOption, Some, None};
ghost use Rattle.lint_ignore.specs.Comment.{BeginsNoBody, CanCutDelimiters, IsIgnore, comment_body, has_disable_comment, ignore_in, ignore_of, inside, is_disable_comment, token_part};
ghost use Rattle.lint_ignore.specs.Part.{part_of, range_of};
ghost use Rattle.sql_tree.specs.Range.{token_at};

use crate::ignore::IgnoreKind;
use crate::part::Part;
use memchr::memmem;
use sql_tree::{Parse, TextRange, TokKind};

/// The text that makes a comment a line ignore: its body begins with it, and not with [`IGNORE_FILE_TEXT`].
pub const IGNORE_LINE_TEXT: &str = "squawk-ignore";

/// The text that makes a comment a file ignore: its body begins with it.
pub const IGNORE_FILE_TEXT: &str = "squawk-ignore-file";

// The body of the comment that turns off the assumption of an open transaction.
const DISABLE_TEXT: &str = "squawk-disable-assume-in-transaction";

// What a comment says between its marks.
fn inside<'t>(kind: TokKind, token: Part<'t>) -> Option<Part<'t>>
    requires { CanCutDelimiters kind token.text.now }
    ensures { MatchOption result (inside kind (part_of token.entry) ≡ None) (λ p. inside kind (part_of token.entry) ≡ Some (part_of p)) }
{
    let text = token.text;
    match kind {
        TokKind::LineComment => Some(Part {
            at: token.at + 2,
            text: &text[2..],
        }),
        TokKind::BlockComment => Some(Part {
            at: token.at + 2,
            text: &text[2..text.len() - 2],
        }),
        _ => None,
    }
}

// The kind of token `i`.
fn kind_at(p: &Parse, i: usize) -> TokKind
    requires { i < length p.now.toks }
    ensures { result ≡ (token_at p.now.toks i).kind }
{
    p.tokens()[i].kind
}

// Token `i` and its place.
fn token_part<'t>(p: &Parse<'t>, i: usize) -> Part<'t>
    requires { i < length p.now.toks }
    ensures part { part_of result ≡ token_part p.now.text (token_at p.now.toks i) }
    ensures marks { CanCutDelimiters (token_at p.now.toks i).kind result.text.now }
{
    let at = p.tokens()[i].start;
    Part {
        at,
        text: p.token_text(i),
    }
}

// The body of token `i`, if it is a comment.
fn comment_body<'t>(p: &Parse<'t>, i: usize) -> Option<Part<'t>>
    requires { i < length p.now.toks }
    ensures { MatchOption result (comment_body p.now.text (token_at p.now.toks i) ≡ None)
        (λ body. comment_body p.now.text (token_at p.now.toks i) ≡ Some (part_of body)) }
{
    match inside(kind_at(p, i), token_part(p, i)) {
        Some(part) => Some(part.trimmed().before_dashes().trimmed_end()),
        None => None,
    }
}

// What follows the text that makes a body an ignore comment, and what it makes it.
fn ignore_in<'t>(body: Part<'t>) -> Option<(Part<'t>, IgnoreKind)>
    ensures { MatchOption result (ignore_in (part_of body.entry) ≡ None)
        (λ r. ignore_in (part_of body.entry) ≡ Some (part_of r.0, r.1)) }
{
    if let Some(rest) = body.after(IGNORE_FILE_TEXT) {
        return Some((rest, IgnoreKind::File));
    }
    match body.after(IGNORE_LINE_TEXT) {
        Some(rest) => Some((rest, IgnoreKind::Line)),
        None => None,
    }
}

// The same of token `i`.
pub(crate) fn ignore_of<'t>(p: &Parse<'t>, i: usize) -> Option<(Part<'t>, IgnoreKind)>
    requires { i < length p.now.toks }
    ensures { MatchOption result (ignore_of p.now i ≡ None) (λ r. ignore_of p.now i ≡ Some (part_of r.0, r.1)) }
{
    match comment_body(p, i) {
        Some(body) => ignore_in(body),
        None => None,
    }
}

/// What token `i` says as an ignore comment: what follows [`IGNORE_LINE_TEXT`] or
/// [`IGNORE_FILE_TEXT`] in its body, where that is present in the text, and its kind.
///
/// `None` comes exactly where the token is no ignore comment. It takes no memory.
pub fn ignore_rule_info<'t>(p: &Parse<'t>, i: usize) -> Option<(&'t str, TextRange, IgnoreKind)>
    requires { i < length p.now.toks }
    ensures { MatchOption result (ignore_of p.now i ≡ None) (λ r. IsIgnore p.now i r.0.now r.1 r.2) }
{
    match ignore_of(p, i) {
        Some((rest, kind)) => Some((rest.text, rest.range(), kind)),
        None => None,
    }
}

// Whether the body of some comment may begin with these words: whether they are there anywhere in the
// text. Most texts lack them, and a text is searched much faster than its tokens, which take several
// times its memory.
pub(crate) fn may_begin_body(p: &Parse, words: &str) -> bool
    ensures { result ≡ false → All (BeginsNoBody words.now p.now.text) p.now.toks }
{
    memmem::find(p.text().as_bytes(), words.as_bytes()).is_some()
}

// Whether token `i` is the disable comment.
fn is_disable_comment(p: &Parse, i: usize) -> bool
    requires { i < length p.now.toks }
    ensures { result ≡ is_disable_comment p.now.text (token_at p.now.toks i) }
{
    match comment_body(p, i) {
        Some(body) => body.text == DISABLE_TEXT,
        None => false,
    }
}

/// Whether some comment says that no open transaction is to be assumed: its body is exactly
/// `squawk-disable-assume-in-transaction`. It takes no memory.
pub fn has_disable_assume_in_transaction(p: &Parse) -> bool
    ensures { result ≡ has_disable_comment p.now }
{
    if !may_begin_body(p, DISABLE_TEXT) {
        return false;
    }
    for i in 0..p.tokens().len() {
        if is_disable_comment(p, i) {
            return true;
        }
    }
    false
}
