//! Statements that set the search path, by which a table's name finds its schema.

ghost use Rattle.std.specs.Prelude.{◌≡◌, ◌+◌, ◌<◌, ◌∷◌, [], drop, length, IfSome, IfNone};
ghost use Rattle.lint_pass.specs.sql_token.Token.{text_of};
ghost use Rattle.sql_tree.specs.Range.{token_at};
ghost use Rattle.lock_machine.specs.Plain as spec;
ghost use Rattle.lock_machine.specs.Plain.{word_by, words_from};

use lint_pass::{Keyword, Span, TokKind, is_one_name, keyword_of, same_keyword, same_kind};
use sql_tree::{Body, Parse, Stmt, StmtKind};

fn is_search_path(p: &Parse<'_>, name: Option<Span>) -> bool
    ensures { result ≡ spec.is_search_path p.now name }
{
    match name {
        Some(path) => is_one_name(p, path, "search_path"),
        None => false,
    }
}

/// Whether a statement is SET search_path.
pub(crate) fn sets_search_path(p: &Parse<'_>, s: &Stmt) -> bool
    ensures { result ≡ spec.sets_search_path p.now s.now.body }
{
    match s.body {
        Body::Setting { name } => is_search_path(p, name),
        _ => false,
    }
}

/// The number of the first token that is no blank and no comment, among those from `next` to before `end`.
fn token_from(p: &Parse<'_>, next: usize, end: usize) -> Option<usize>
    ensures within { IfSome result (λ i. i < length p.now.toks) }
    ensures before { IfSome result (λ i. i < end) }
    ensures some { IfSome result (λ i. words_from p.now end next
        ≡ word_by (token_at p.now.toks i).kind (text_of p.now.text (token_at p.now.toks i)) ∷ words_from p.now end (i + 1)) }
    ensures none { IfNone result (words_from p.now end next ≡ []) }
{
    let limit = p.tokens().len().min(end);
    for i in next..limit {
        if p.tokens()[i].kind.is_significant() {
            return Some(i);
        }
    }
    None
}

/// The key word that a token is.
fn keyword_at(p: &Parse<'_>, i: usize) -> Option<Keyword>
    requires { i < length p.now.toks }
    ensures { result ≡ word_by (token_at p.now.toks i).kind (text_of p.now.text (token_at p.now.toks i)) }
{
    match p.tokens()[i].kind {
        TokKind::Word => keyword_of(p.token_text(i).as_bytes()),
        _ => None,
    }
}

fn is_keyword(found: Option<Keyword>, word: Keyword) -> bool
    ensures { result ≡ spec.is_word word found }
{
    match found {
        Some(found) => same_keyword(found, word),
        None => false,
    }
}

/// Whether the tokens from `next` to before `end` begin with the word.
fn begins_with(p: &Parse<'_>, word: Keyword, next: usize, end: usize) -> bool
    ensures { result ≡ spec.begins_with word (words_from p.now end next) }
{
    match token_from(p, next, end) {
        Some(i) => is_keyword(keyword_at(p, i), word),
        None => false,
    }
}

/// Whether they begin with SCHEMA, or with SESSION SCHEMA or LOCAL SCHEMA.
fn names_schema(p: &Parse<'_>, next: usize, end: usize) -> bool
    ensures { result ≡ spec.names_schema (words_from p.now end next) }
{
    match token_from(p, next, end) {
        None => false,
        Some(i) => {
            let found = keyword_at(p, i);
            if is_keyword(found, Keyword::SESSION) || is_keyword(found, Keyword::LOCAL) {
                begins_with(p, Keyword::SCHEMA, i + 1, end)
            } else {
                is_keyword(found, Keyword::SCHEMA)
            }
        }
    }
}

/// The same after the first token.
fn names_schema_after_one(p: &Parse<'_>, next: usize, end: usize) -> bool
    ensures { result ≡ spec.names_schema (drop 1 (words_from p.now end next)) }
{
    match token_from(p, next, end) {
        Some(i) => names_schema(p, i + 1, end),
        None => false,
    }
}

/// Whether a statement is SET SCHEMA.
pub(crate) fn sets_schema(p: &Parse<'_>, s: &Stmt) -> bool
    ensures { result ≡ spec.sets_schema p.now s.now }
{
    same_kind(s.kind, StmtKind::Set)
        && names_schema_after_one(p, s.first as usize, s.last as usize + 1)
}
