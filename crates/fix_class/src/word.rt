//! Words of a statement that its tree does not keep.
ghost use Rattle.std.specs.Prelude.{◌≡◌, ◌<◌, length};
ghost use Rattle.lint_ignore.specs.sql_token.Token.{text_of};
ghost use Rattle.lint_ignore.specs.sql_tree.Range.{token_at};
ghost use Rattle.fix_class.specs.Words as spec;

use lint_ignore::{Parse, Stmt, TokKind};

fn is_word_kind(kind: TokKind) -> bool
    ensures { result ≡ spec.is_word_kind kind }
{
    matches!(kind, TokKind::Word)
}

fn is_word_by(kind: TokKind, text: &str, word: &str) -> bool
    ensures { result ≡ spec.is_word_by kind text.now word.now }
{
    is_word_kind(kind) && text.eq_ignore_ascii_case(word)
}

// Whether the token of this number is this word, in capitals or not.
#[tactic(auto, unfolding(crate::specs::Words::is_word_at))]
fn is_word_at(p: &Parse<'_>, word: &str, i: usize) -> bool
    requires { i < length p.now.toks }
    ensures { result ≡ spec.is_word_at p.now word.now i }
{
    is_word_by(p.tokens()[i].kind, p.token_text(i), word)
}

/// The text of the token of this number, which is empty past the last one.
pub(crate) fn text_at<'t>(p: &Parse<'t>, number: u32) -> &'t str
    ensures { result.now ≡ text_of p.now.text (token_at p.now.toks number) }
{
    let i = number as usize;
    if i < p.tokens().len() {
        p.token_text(i)
    } else {
        ""
    }
}

// The number after the last token of a statement.
fn end_of(p: &Parse<'_>, s: &Stmt) -> usize
    ensures { result ≡ spec.end_of p.now s.now }
{
    (s.last as usize + 1).min(p.tokens().len())
}

/// Whether a token of a statement is this word, in capitals or not.
#[tactic(auto, using(crate::proofs::Saying::no_more, crate::proofs::Saying::one_more))]
pub(crate) fn says(p: &Parse<'_>, word: &str, s: &Stmt) -> bool
    ensures { result ≡ spec.says p.now word.now s.now }
{
    let end = end_of(p, s);
    for i in s.first as usize..end {
        if is_word_at(p, word, i) {
            return true;
        }
    }
    false
}
